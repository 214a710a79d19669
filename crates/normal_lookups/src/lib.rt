//! What the normal form of a program asks of it, looked up in one step: ranges of families and arrays of tasks, what the formals of entries are, and which expressions are static.
#![tactic(auto)]

mod entry_forms;
mod kinds;
mod lookups;
pub mod meanings;
pub mod names;
pub mod pieces;
mod ranges;
mod static_names;

pub use lookups::Lookups;
