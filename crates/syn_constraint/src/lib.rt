//! Constraints over a sequence of events: their files, and the first event that breaks one.
//!
//! `specs/Files.antt` says which constraints a file is read as, and what its first fault is. `specs/Breaking.antt` says where a constraint is broken.
#![tactic(auto)]

mod breaking;
mod by_value;
mod constraints;
mod early;
mod errors;
mod known;
mod lasts;
mod lines;
mod reach;
mod reading;
mod surplus;
mod surplus_by_value;
mod words;

pub use breaking::first_break;
pub use constraints::{Constraint, Letter, Num, Pattern};
pub use errors::ConError;
pub use reading::read_constraints;
