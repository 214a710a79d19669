//! Race variants: which events can come next after a feasible list of events, and which tasks are open there.
//!
//! `specs/Variants.antt` says what they are.
#![tactic(auto)]

mod adding;
mod asking;
mod continuing;
mod finding;
mod proposing;
mod seeing;
mod variant_laws;

pub use continuing::{GoEnd, go_on};
pub use finding::variants;
pub use variant_laws::laws;
