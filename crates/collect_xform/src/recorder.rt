//! The recorder of a collecting text: its declaration, and its body, which takes notes and writes a line for each event.
#![tactic(auto, using(ada_tree::proofs::Rows::rows))]

mod declaring;
mod flags;
mod lines;
mod noting;
mod recording;

pub use declaring::{note_formals, recorder_declared};
pub use flags::{answered, flag_of, flag_set, flags_declared, truth};
pub use lines::{
    call_line, delay_line, header_put, header_text, line_end, one_part, put_words, task_line,
};
pub use noting::{on_end, on_other_part, put_branch, put_parts};
pub(crate) use recording::recorder_body;
