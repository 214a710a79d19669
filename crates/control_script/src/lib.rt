//! The script of a sequence: the operations of a controller that lets the tasks of a program go on one event at a time, in the order of the sequence.
#![tactic(auto)]

mod kinds;
mod operations;
pub mod progress;

pub use kinds::{
    KIND_ABORT, KIND_CALL_ELSE, KIND_COMPLETE, KIND_DELAY, KIND_ELSE, KIND_END, KIND_EXPIRE,
    KIND_FAIL, KIND_FINISH, KIND_START,
};
pub use operations::script;

/// One operation of the controller.
#[derive(Clone, Copy)]
pub enum Op {
    /// It hands the task a permit for one event. `kind` is the kind of the event, of those from `KIND_START` to `KIND_END`.
    /// `arg` is the event's entry, delay alternative or aborted task, and `index` the member of a family of entries; where an event has none it is 0.
    Go {
        task: u32,
        kind: u32,
        arg: u32,
        index: i32,
    },
    /// It hears from the task that it has done what its permit was for.
    Done {
        task: u32,
    },
    /// It waits until the task is closed.
    Join {
        task: u32,
    },
    /// It waits for ever.
    Hold,
}
