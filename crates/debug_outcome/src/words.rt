//! The words that the program is called with.

mod command;

pub use command::{
    Choices, Command, ContinueWords, JudgeWords, NoWords, ReplayWords, RequireWords, RunWords,
    command_of,
};
