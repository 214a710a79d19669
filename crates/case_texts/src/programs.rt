//! The cases of whole texts: what is read of them and why they are refused, what is printed, and what errors say.

mod messages;
mod reading;

pub use messages::{message, text_message};
pub use reading::{fronts, print_question, printed, printed_len, read};
