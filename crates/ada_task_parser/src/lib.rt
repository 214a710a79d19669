//! Tasks, task types and their entries, and the pragma PRIORITY (ANSI/MIL-STD-1815A chapter 9).
#![tactic(auto)]

mod entries;
mod pragmas;
mod task_items;
mod tasks;

pub use pragmas::read_pragma;
pub use tasks::task_rest;
