//! What the rewriters of normal forms have in common: how declarations are sorted, where further ones go, and the marks of entries.
#![tactic(auto, using(ada_tree::proofs::Rows::rows, crate::proofs::Placed::placed))]

mod marks;
mod sorting;

pub use marks::marks_of;
pub use sorting::{last_task, own_objects, sort_decls};
