//! The static rules that a program must meet, those on tasks, statements and limits beside those on its types, and which types and numbers it has.
#![tactic(auto)]

mod checking;
pub mod declaration_places;
mod declarations;
mod errors;
mod telling;

pub use checking::{Checked, check};
pub use errors::CheckError;
