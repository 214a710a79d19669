//! The tables of the controller, and the ids of the names in its body.

mod columns;
mod names;

pub use columns::Column;
pub use names::ControlNames;
