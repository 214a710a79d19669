//! What is counted over a whole Ada program: its tasks, their entries, and what the rewriters would copy.

mod copies;
mod counts;
mod shares;

pub use copies::refuse_copies;
pub use counts::{refuse_entries, refuse_tasks};
