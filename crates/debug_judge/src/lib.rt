//! The judging of a sequence for a program, one event after the other, with the text of its verdict on the output.
#![tactic(auto)]

mod judged_events;
mod judged_lines;
pub mod order_law;
mod verdict_texts;

pub use judged_events::{LinesVerdict, is_feasible, judge_events};
pub use judged_lines::{LinesError, judge_lines};
pub use verdict_texts::{report_found, report_lines};
