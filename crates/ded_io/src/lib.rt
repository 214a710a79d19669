//! The outside as traits: files that are loaded, outputs that are written, and choices that are handed in,
//! each with a form in memory whose contract is exact.
#![tactic(auto)]

mod choosing;
pub mod decimals;
mod loading;
pub mod pages;
pub mod seeds;
mod stored_files;
mod stored_output;
mod writing;

pub use choosing::{Chooser, ListChooser};
pub use loading::{Files, LoadError};
pub use seeds::SeedChooser;
pub use stored_files::{FileEntry, MemoryFiles};
pub use stored_output::MemorySink;
pub use writing::{Sink, SinkError};
