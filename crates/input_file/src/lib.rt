//! Input files, which say what the tasks of a program read, and choice files, which say what a run picks.
//!
//! `specs/InputFiles.antt` and `specs/ChoiceFiles.antt` say what a file is read as, and what its first fault is.
#![tactic(auto)]

mod choices;
mod errors;
mod inputs;
mod table;

pub use choices::read_choices;
pub use errors::InputError;
pub use inputs::read_inputs;
