//! The numbers of a replay text.
#![tactic(auto)]

mod entries;
mod numbers;
mod origins;
mod owners;

pub use numbers::numbers_by;
