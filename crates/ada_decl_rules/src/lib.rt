//! The static rules at declarations: of objects and their initial values, and of names that are declared or named again.
#![tactic(auto)]

pub mod duplicates;
pub mod objects;
