//! The static rules on tasks, statements and limits, as far as they speak of single names and numbers, and what stands around a place.
#![tactic(auto)]

pub mod rules;
pub mod scopes;
