//! The judge: whether a list of synchronization events is feasible for a program, told event by event, without a search
//! through interleavings.
#![tactic(auto)]

mod conditions;
mod happening;
mod judge;
mod judge_laws;
mod settling;
mod showing;

pub use judge::{Judge, judge_all};
pub use judge_laws::laws;
pub use showing::TaskView;
pub use task_machine::{Cause, Verdict, Why};
