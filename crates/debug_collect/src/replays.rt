//! The replaying of a sequence: the text of a program in which only this sequence can happen, on the output.

mod replaying;

pub use replaying::write_replay;
