//! Values of the interpreted language: what an expression is worth (chapters 3 and 4 of ANSI/MIL-STD-1815A), the exceptions that its
//! evaluation raises, and what the tasks read.
#![tactic(auto)]

mod attributes;
mod bindings;
mod evaluating;
mod fixed;
mod inputs;
mod naming;
mod operators;
pub mod put_text;
mod scoped;
mod static_law;
mod subtypes;
mod values;

pub use bindings::{Binding, Scope, Vars};
pub use evaluating::{bounds, condition, evaluate, narrowed, range};
pub use fixed::{constant_value, fixed_value, limits_named};
pub use inputs::Inputs;
pub use naming::NameValues;
pub use scoped::eval;
pub use static_law::law_of_static_values;
pub use subtypes::{
    checked, form_of_mark, integer_limits, is_empty_range, is_true, lies_in, limits_of,
    limits_of_kind, lower, place_among, place_in, position_of, truth_limits, value_at, word,
};
pub use values::{Form, Limits, Raised, Value};
