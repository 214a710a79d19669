//! The places of a program at which the static rules on tasks, statements and limits ask something, and what is refused first at them.
#![tactic(auto)]

pub mod parts;
pub mod statements;
