//! The static rules at entries of Ada: their declarations, calls and accepts, and the variables that are written.
#![tactic(auto)]

pub mod accept_heads;
mod actuals;
pub mod callees;
pub mod calls;
pub mod case_choices;
pub mod entries;
pub mod targets;
