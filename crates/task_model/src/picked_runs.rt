//! What a run comes to, beside the definitions of runs under given choices and of their lines.

mod report;

pub use report::{RunEnd, RunReport};
