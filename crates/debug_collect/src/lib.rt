//! The commands that write a rewritten text or what a run of one tells: the collecting text of a program, or the sequence that a run of it records; its
//! replay text (`replays`); and the load test, which runs both (`loads`).
#![tactic(auto)]

mod collecting;
pub mod loads;
mod nowhere;
mod recording;
pub mod replays;

pub use collecting::write_collect;
pub use recording::write_recorded;
