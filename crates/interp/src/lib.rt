//! Runs of a program under choices that are handed in: each turn makes one of the actions that apply.
#![tactic(auto)]

mod gathering;
mod report;
mod running;

pub use report::RunError;
pub use running::run;
pub use task_model::picked_runs::{RunEnd, RunReport};
