//! The types of a program, and the values of its static expressions.
#![tactic(auto)]

mod declarations;
mod enumerations;
mod named_types;
mod statements;
mod task_bodies;
mod tasks;
mod types;
mod walked_decls;
mod written_parts;

pub use ada_scopes::values::named_values::mark_of;
pub use ada_scopes::values::static_values::{is_static, static_value};
pub use ada_static_rules::errors::TypeError;
pub use common_lemmas::division::law_of_mod;
pub use types::types_of;
