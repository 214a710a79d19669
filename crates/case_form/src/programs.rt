//! The programs that questions are asked of: read, checked, and with the events of a sequence; and how it is said that a text is none.

mod known;
mod naming;
mod reading;
mod sequences;

pub use known::{Known, assigned, known_of, types_in};
pub use naming::put_name;
pub use reading::{answer_fault, answer_refused, place_of, program_of};
pub use sequences::{put_fault, sequence_of};
