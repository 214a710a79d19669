//! The files that the words name, loaded in their order.

mod loading;

pub use loading::{
    CHOICES_LIMIT, CONSTRAINTS_LIMIT, ChoiceBytes, ContinueFiles, INPUTS_LIMIT, JudgeFiles,
    ORIGINAL_LIMIT, ReplayFiles, RequireFiles, RunFiles, SEQUENCE_LIMIT, StartFiles, TEXT_LIMIT,
    load_collect, load_continue, load_judge, load_replay, load_require, load_run,
};
