//! Laws of every program that is read from a text.
#![tactic(auto)]

pub mod collect_read_back;
pub mod normal;
pub mod normal_read_back;
pub mod replay_read_back;
pub mod sizes;
