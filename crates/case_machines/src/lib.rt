//! The cases of the machine and of judging: values of expressions, runs under choices, and verdicts on sequences of events.
#![tactic(auto)]

mod judging;
pub mod rewritings;
mod running;
mod valuing;

pub use judging::{Judging, judge_question};
pub use running::run_question;
pub use valuing::value;
