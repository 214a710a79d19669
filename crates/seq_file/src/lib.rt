//! Sequence files: the events of one run, as a text with one line for each.
//!
//! `specs/Files.antt` says which events a file is read as, and what its first fault is.
#![tactic(auto)]

mod errors;
mod known;
mod line_words;
mod lines;
mod list_reading;
mod list_writing;
mod reading;
mod stepping;
mod task_lists;
pub mod text_lines;
mod writing;

pub use errors::SeqError;
pub use list_reading::{is_in_lists, read_lists};
pub use list_writing::write_lists;
pub use reading::read_seq;
pub use stepping::SeqLines;
pub use task_lists::TaskLists;
pub use writing::write_seq;
