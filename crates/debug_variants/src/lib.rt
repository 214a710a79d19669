//! What can come at each place of a feasible sequence, and going on from one, with the texts on the output.
#![tactic(auto)]

mod continuing;
mod placing;
mod telling;

pub use continuing::report_continued;
pub use telling::report_variants;
