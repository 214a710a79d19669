//! How one task of the interpreted language starts: at the first statement of its body, with its objects (3.2.1, 9.1 and 9.3 of
//! ANSI/MIL-STD-1815A; that activation is no step is this project's rule).

mod initials;
mod object_forms;
mod objects;
#[tactic(auto, using(ada_tree::proofs::Rows::rows))]
mod starting;
#[tactic(auto, using(ada_tree::proofs::Rows::rows))]
mod units;

pub use starting::start;
pub use units::{Unit, unit_of};
