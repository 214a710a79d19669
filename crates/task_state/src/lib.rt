//! One task of the interpreted language as it goes on: its parts, the evaluation of what its statements have, and the ways in which it
//! goes on behind a statement, into a branch, a block or a loop, and as an exception is raised (chapters 3, 5, 11 and 14 of ANSI/MIL-STD-1815A).
#![tactic(auto)]

mod evaluating;
pub mod frames;
mod moves;
mod parameters;
mod state;

pub use state::TaskState;
