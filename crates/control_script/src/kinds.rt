// The kinds of permits, by the events that they are for.

/// The kind of `R`: a rendezvous starts.
pub const KIND_START: u32 = 1;

/// The kind of `E`: a rendezvous ends.
pub const KIND_FINISH: u32 = 2;

/// The kind of `S`: the else part of a selective wait.
pub const KIND_ELSE: u32 = 3;

/// The kind of `D`: a delay alternative of a selective wait.
pub const KIND_DELAY: u32 = 4;

/// The kind of `C`: the else part of a conditional call.
pub const KIND_CALL_ELSE: u32 = 5;

/// The kind of `T`: the delay alternative of a timed call.
pub const KIND_EXPIRE: u32 = 6;

/// The kind of `F`: a call fails.
pub const KIND_FAIL: u32 = 7;

/// The kind of `X`: a task completes.
pub const KIND_COMPLETE: u32 = 8;

/// The kind of `B`: a task aborts itself or another one.
pub const KIND_ABORT: u32 = 9;

/// The kind of `Z`: the program ends.
pub const KIND_END: u32 = 10;
