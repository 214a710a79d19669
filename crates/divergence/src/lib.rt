//! The text of a verdict: where a sequence parts from what the program can do, why, and how the tasks stand there.
//!
//! `specs/JudgeText.antt` says what the text is.
#![tactic(auto)]

mod reporting;
mod views;

pub use reporting::report;
