//! The run of a program under an empty list of choices, with its text on the output.
#![tactic(auto)]

mod running;
pub mod texts;

pub use running::{status_of, write_run};
