//! The form of a transcript of cases: escapes, texts with a name, questions with their answers, what stands around a whole call, and the programs that questions are asked of.
#![tactic(auto)]

mod escapes;
pub mod outside;
pub mod programs;
mod questions;
mod stage;
mod texts;
mod writing;

pub use escapes::{Expansion, expand};
pub use questions::{Question, ask};
pub use stage::{Failing, Stage};
pub use texts::{Text, text_named};
pub use writing::{put_comma, put_escaped, put_lines, put_quoted};
