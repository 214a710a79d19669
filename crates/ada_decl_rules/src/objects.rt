//! The static rules at declarations of objects of Ada, and what these add to the types.

mod initials;
pub mod making;
pub mod objects;
mod plans;
mod shapes;
