//! What the tasks of a collecting text of a program with abort statements do: its recorder, and each task beside the one of the normal form.

pub mod forms;
pub mod imitating;
pub mod originals;
pub mod recorder;
pub mod starts;
pub mod telling;
pub mod translation;
