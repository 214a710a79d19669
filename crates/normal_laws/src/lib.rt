//! The laws of normal forms: part by part, what they show, that each legal program has one, and that it is legal.
#![tactic(auto)]

pub mod existence;
pub mod legality;
pub mod runs;
pub mod structure;
