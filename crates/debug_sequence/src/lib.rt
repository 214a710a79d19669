//! What is told of a sequence of events by the numbers of its program alone: for which sequence a file stands, the same in the other format, and
//! which constraints it breaks.
#![tactic(auto)]

mod gathering;
mod migrating;
mod reading;
mod requiring;

pub use migrating::migrate;
pub use reading::read_sequence;
pub use requiring::{Broken, Finding, report_breaks};
