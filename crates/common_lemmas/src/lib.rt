//! Short lemmas on truth values, numbers, options, results and lists, for every crate. The crate has no code.
#![tactic(auto)]

pub mod division;
