//! The replay text of a normal form and a sequence of events, and its numbers.
#![tactic(auto, using(ada_tree::proofs::Rows::rows))]

pub mod numbering;
mod numbers;
mod program;
mod tables;
mod text;

pub use numbers::replay_numbers;
pub use program::replay;
pub use text::{replay_sequence, replay_text};
