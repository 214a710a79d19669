//! The kinds of notes, by which the recorder tells them apart.

/// The task is before a call.
pub const BEFORE_CALL: u32 = 0;

/// The task's call has been accepted: its acceptor says so, first thing in the accept body.
pub const HAS_BEGUN: u32 = 1;

/// The task is at the end of an accept body.
pub const AT_FINISH: u32 = 2;

/// The task has taken the else part of its selective wait.
pub const HAS_ELSE: u32 = 3;

/// The task has taken a delay alternative of its selective wait.
pub const HAS_DELAY: u32 = 4;

/// The task has taken the else part of its conditional call.
pub const HAS_CALL_ELSE: u32 = 5;

/// The task has taken the delay alternative of its timed call.
pub const HAS_EXPIRED: u32 = 6;

/// TASKING_ERROR has been raised at the task's call.
pub const HAS_FAILED: u32 = 7;

/// The task is at its end.
pub const AT_END: u32 = 8;
