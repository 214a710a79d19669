//! Sequences of events by tasks: the lists into which a sequence splits, the sequence into which lists join, and neighbours that can be exchanged.
#![tactic(auto)]

mod errors;
mod exchanging;
mod followed;
mod joining;
pub mod laws;
mod lists;
mod places;
mod readiness;
mod splitting;

pub use errors::OrderError;
pub use exchanging::exchangeable;
pub use joining::join;
pub use splitting::split;
