//! The steps of one task of the interpreted language at each statement that is no synchronizing one (chapters 5, 11 and 14 of
//! ANSI/MIL-STD-1815A; the division into steps is this project's rule).
#![tactic(auto)]

mod assigning;
#[tactic(auto, using(ada_tree::proofs::Rows::rows))]
mod choosing;
mod leaving;
mod looping;
pub mod start;
#[tactic(auto, using(ada_tree::proofs::Rows::rows, crate::proofs::StandLemmas::stands))]
mod steps;

pub use assigning::{step_assign, step_get, step_put};
pub use choosing::{step_case, step_if};
pub use leaving::{step_exit, step_raise};
pub use looping::{step_loop, step_turn};
pub use steps::{step_block, step_statement};
