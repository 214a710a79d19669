//! The variables that the normal form adds to a unit, as they are declared statement by statement.
#![tactic(auto)]

mod adding;
mod calls;
mod entering;
mod track;
mod waits;

pub use entering::{enter_alternative, enter_statement};
pub use track::Track;
