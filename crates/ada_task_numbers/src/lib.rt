//! The numbers of the tasks and entries of an Ada program.
#![tactic(auto)]

mod numbers;
pub mod task_counts;
pub mod task_objects;

pub use numbers::numbers_for;
