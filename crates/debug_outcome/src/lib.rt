//! What a call of the program comes to: refusals with their status and line, the loading of files, and how an outcome is delivered.
#![tactic(auto)]

pub mod files;
mod loading;
mod printing;
mod refusal;
pub mod sequences;
mod stopping;
mod telling;
mod tracing;
pub mod words;

pub use loading::{load_file, load_named};
pub use printing::write_text;
pub use refusal::{
    ConstraintFault, InputFault, Listed, Misspelling, Refusal, Rule, RuleFault, SequenceFault,
    TextFault,
};
pub use stopping::{Stop, tell};
pub use tracing::TracedFiles;
