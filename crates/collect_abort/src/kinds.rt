// The kinds of notes that a program with abort statements has beside the others.

/// The task is to abort another task, or itself.
pub(crate) const AT_ABORT: u32 = 9;

/// The task's call has come back without an exception.
pub(crate) const HAS_RETURNED: u32 = 10;
