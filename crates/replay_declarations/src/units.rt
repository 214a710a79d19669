//! The declarations of a replay text: further entries, the variables of permits, the bodies of units, the controller and the idle task.
#![tactic(auto, using(ada_tree::proofs::Rows::rows, crate::proofs::units::Placed::placed))]

mod permits;
mod program;
mod runners;
mod tasks;
mod units;

pub use program::{Head, replay_decls};
