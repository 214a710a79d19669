//! What the names of a program mean to its tasks, looked up in one step.
#![tactic(auto)]

mod entry_formals;
mod formals;
mod keeping;
mod links;
mod static_names;
pub mod store;
mod task_names;
mod task_scope;
mod type_names;

pub use formals::{parameters_of, variable_of};
pub use links::{Links, index_in};
pub use static_names::StaticNames;
pub use task_names::TaskNames;
pub use task_scope::TaskScope;
pub use type_names::TypeNames;
