//! All tasks of a program: the machine whose atomic steps are the actions of the table in `event_machine`
//! (chapter 9 of ANSI/MIL-STD-1815A).
#![tactic(auto)]

mod aborting;
pub mod applying;
pub mod effects;
mod listing;
mod machine;
mod moving;
mod program_laws;
mod rendezvous;
pub mod seats;
mod starting;
mod verdict;

pub use event_machine::Action;
pub use machine::{Machine, StepError};
pub use program_laws::laws;
pub use starting::start_all;
pub use verdict::{Cause, Verdict, Why};
