//! What a task stands at where its next statement is a synchronizing one: a call, an accept statement, a selective wait or an abort
//! (sections 9.5, 9.7 and 9.10 of ANSI/MIL-STD-1815A), and what is taken of a wait.
#![tactic(auto)]

#[tactic(auto, using(ada_tree::proofs::Rows::rows))]
mod alternatives;
pub mod calls;
#[tactic(auto, using(ada_tree::proofs::Rows::rows))]
mod choosing;
#[tactic(auto, using(ada_tree::proofs::Rows::rows))]
mod delays;
#[tactic(auto, using(ada_tree::proofs::Rows::rows))]
mod room;
#[tactic(auto, using(ada_tree::proofs::Rows::rows))]
mod stands;

pub use alternatives::{Accepting, alternative_for, no_parts};
pub use delays::delay_stmts;
pub use room::{room_at, widest_among, widest_wait};
pub use stands::{Stand, stand_at};
