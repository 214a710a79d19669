//! The declarations of a replay text: the controller, the idle task, and one task for each number.
#![tactic(auto)]

pub mod control;
pub mod ids;
pub mod units;
