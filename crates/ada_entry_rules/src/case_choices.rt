//! The static rules at the choices of a case statement of Ada.

pub mod choices;
mod covered;
