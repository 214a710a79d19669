//! The recorder of a collecting text with abort statements: its tables, and its body, which takes notes, writes a line for each event, and makes the aborts.
#![tactic(auto, using(ada_tree::proofs::Rows::rows))]

mod aborts;
mod branches;
mod meetings;
mod recording;

pub(crate) use recording::recorder_body;
