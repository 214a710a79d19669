//! The variables of one task as they are kept: a name is looked up in one step, and a value is written in its place.

mod objects;
mod variables;

pub use objects::Objects;
pub use variables::Variable;
