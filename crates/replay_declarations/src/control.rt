//! The controller and the idle task of a replay text: their declarations and their bodies.
#![tactic(auto, using(ada_tree::proofs::Rows::rows))]

mod controller_bodies;
mod declarations;

pub use controller_bodies::{control_body, idle_body};
pub use declarations::{control_declared, idle_declared, permit_words, plain_entry};
