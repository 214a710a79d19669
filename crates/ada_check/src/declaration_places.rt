//! The places in the declarations of an Ada program, and what is refused first at them.

mod adding;
mod declaration_rules;
mod objects;
mod tasks;

pub use adding::declare;
pub use declaration_rules::{walk_own, walk_places};
