//! Declarations that know no statement and no task (ANSI/MIL-STD-1815A chapters 3, 11 and 12): objects, numbers, exceptions,
//! types, subtypes and instances.
#![tactic(auto)]

mod initials;
mod objects;
mod types;

pub use objects::{read_named, read_object};
pub use types::{read_instance, subtype_rest, type_rest};
