//! What names mean in the scopes of an Ada program, and the types, marks and constants that are declared so far.
#![tactic(auto)]

pub mod denotations;
pub mod formals;
mod predefined;
pub mod readings;
pub mod scope;
pub mod table;
pub mod values;
