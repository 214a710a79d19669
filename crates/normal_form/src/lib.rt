//! The normal form of a program, and its numbers.
#![tactic(auto)]

mod body_copies;
mod errors;
mod numbers;
pub mod unit_declarations;
mod whole;

pub use errors::XformError;
pub use numbers::normal_numbers;
pub use whole::normal;
