//! The statements of one unit in normal form, with the variables that they ask for.
#![tactic(auto, using(ada_tree::proofs::Rows::rows, crate::proofs::Walking::walking))]

mod normalizer;
mod units;
pub mod variables;
pub mod waits;

pub use units::rewrite_unit;
