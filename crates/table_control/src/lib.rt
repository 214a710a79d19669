//! The body of the controller of a replay text as tables: five constant arrays with one component for each operation of a script, and one loop over them.
#![tactic(auto, using(ada_tree::proofs::Rows::rows))]

mod columns;
mod control_bodies;
mod names;
mod tables;
mod turns;

pub use control_bodies::{ControlBody, control_body};
pub use names::control_names;
