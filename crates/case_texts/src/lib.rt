//! The subjects of cases on texts: tokens, expressions, names, whole programs, sameness and copies.
#![tactic(auto)]

pub mod expressions;
pub mod programs;
pub mod sameness;
