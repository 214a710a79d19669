//! One task of the interpreted language, the whole language at once: its local steps, what it offers to others, and what a rendezvous, a
//! failure, another part of a call or a wait, and an abort make of it (chapters 5, 9 and 11 of ANSI/MIL-STD-1815A).
#![tactic(auto)]

mod meeting;
mod offers;
pub mod rendezvous;
pub mod room;
#[tactic(auto, using(ada_tree::proofs::Rows::rows))]
mod standing;
mod starting;
#[tactic(auto, using(ada_tree::proofs::Rows::rows))]
mod task_parts;
mod tasks;

pub use event_machine::{CallForm, Choice};
pub use offers::Offer;
pub use tasks::LocalTask;
