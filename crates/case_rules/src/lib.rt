//! The cases of the layer of static rules: types and static values, names in scopes, numbers, events, neighbours in sequences, and files of events, inputs and choices.
#![tactic(auto)]

mod exchanging;
mod numbering;
mod scoping;
mod sequences;
mod task_files;
mod typing;

pub use exchanging::neighbours;
pub use numbering::{event, number, numbers, origin};
pub use scoping::scopes;
pub use sequences::sequence;
pub use task_files::{choices_file, inputs};
pub use typing::{Told, static_expression, type_table, types};
