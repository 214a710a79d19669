//! The texts that a run and a check write: headers, ends, the lines of tasks and entries, and what tasks have written.

mod check_text;
mod output_text;
mod run_text;

pub use check_text::put_numbers;
pub use output_text::put_output;
pub use run_text::{put_end, put_header, put_part};
