//! The statements of a replay text: what stands in the place of selective waits, and the bodies of units.
#![tactic(auto)]

pub mod rules;
pub mod waiting;
