//! Whole texts of the language: in `specs/` the grammar of statements, declarations and units of ANSI/MIL-STD-1815A as
//! this project's language has it, and what it is to read a text; in `src/` the readers, of which `read` is that of whole
//! texts.
#![tactic(auto)]

mod declarations;
mod errors;
pub mod expression_laws;
mod laws;
mod objects;
mod reading;
mod task_bodies;
mod unit_ends;
mod units;

pub use errors::ReadError;
pub use laws::reading_laws;
pub use reading::read;
