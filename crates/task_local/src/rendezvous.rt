//! What the actions that are no local step do to one task of the interpreted language (sections 9.5, 9.7 and 11.5 of
//! ANSI/MIL-STD-1815A): an accept body is opened and closed, values come back to a call, an else part or a delay is taken.

#[tactic(auto, using(ada_tree::proofs::Rows::rows))]
mod branches;
mod closing;
mod conforming;
mod opening;
#[tactic(auto, using(ada_tree::proofs::Rows::rows))]
mod returning;

pub use branches::{take_delay, take_else};
pub use closing::{close_accept, finals_of};
pub use opening::open_accept;
pub use returning::come_back;
