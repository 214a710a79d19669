//! What the first twelve static rules of Ada refuse, and which of several refusals comes first.
#![tactic(auto)]

pub mod errors;
pub mod found_twice;
pub mod ranking;
pub mod refusals;
pub mod verdicts;
