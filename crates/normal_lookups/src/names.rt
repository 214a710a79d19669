//! The names that the normal form of a program adds: one for each member of an array of tasks, and those of the variables, one after the other.

mod names;
mod task_names;
mod texts;

pub use names::{NormalNames, names_of};
