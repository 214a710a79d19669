//! What the tasks of a collecting text do: its recorder, and each task beside the one of the normal form.
#![tactic(auto)]

pub mod aborts;
pub mod files;
pub mod forms;
pub mod imitating;
pub mod lines;
pub mod originals;
pub mod recorder;
pub mod starts;
pub mod telling;
pub mod translation;
