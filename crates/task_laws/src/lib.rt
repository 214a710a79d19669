//! What stays true of a task as it goes on, and of two tasks of which one is a translation of the other; and what the static
//! rules leave of a legal program (`legal`).
#![tactic(auto)]

pub mod actions;
pub mod invariants;
pub mod legal;
pub mod statements;
pub mod translation;
