//! Laws of whole runs over abstract tasks: of replaying a sequence, of one program that imitates another, and of collecting the events of a run.
#![tactic(auto)]

pub mod aborts;
pub mod collecting;
pub mod imitation;
pub mod replaying;
pub mod telling;
