//! The tasking machine of Ada 83 (chapter 9 of ANSI/MIL-STD-1815A): its events, actions and standings as
//! Rust types, and in `specs/` the one table of actions that the code above and the laws share.
//! The crate has no functions of its own.
#![tactic(auto)]

pub mod progress;

/// The forms of an entry call (9.5, 9.7.2, 9.7.3).
#[derive(Clone, Copy, Debug, PartialEq, Eq)]
pub enum CallForm {
    /// An entry call statement: it waits for as long as it must.
    Plain,
    /// A conditional entry call: it has an else part.
    Conditional,
    /// A timed entry call: it has a delay alternative.
    Timed,
}

/// One thing that a task at an accept statement or a selective wait (9.5, 9.7.1) can do.
#[derive(Clone, Copy, Debug, PartialEq, Eq)]
pub enum Choice {
    /// Accept a caller of the entry `e` (from 1 over the whole program), of the member `i` of a family
    /// or of the plain entry, where `i` is 0.
    Accept { e: u32, i: i32 },
    /// Take the else part.
    Else,
    /// Take the `k`-th delay alternative, counted from 1 in written order, closed ones included.
    Delay { k: u32 },
    /// Take the terminate alternative.
    Terminate,
}

/// A synchronization event. Tasks are numbered from 0, the main program, and entries from 1.
#[derive(Clone, Copy, Debug, PartialEq, Eq)]
pub enum Event {
    /// A rendezvous of the caller `c` at the member `i` of the entry `e` starts.
    R { c: u32, e: u32, i: i32 },
    /// The innermost rendezvous of the acceptor `a` ends at the end of its body. (One that ends since `a` is aborted has no such event.)
    E { a: u32 },
    /// The task `a` takes the else part of its selective wait.
    S { a: u32 },
    /// The task `a` takes the `k`-th delay alternative of its selective wait.
    D { a: u32, k: u32 },
    /// The conditional call of `c` takes its else part.
    C { c: u32, e: u32, i: i32 },
    /// The timed call of `c` takes its delay alternative.
    T { c: u32, e: u32, i: i32 },
    /// The call of `c` fails, since the owner of the entry is closed.
    F { c: u32, e: u32, i: i32 },
    /// The task `a` completes at the end of its body.
    X { a: u32 },
    /// The task `t` aborts the task `x`.
    B { t: u32, x: u32 },
    /// The program ends.
    Z,
}

/// One atomic step of the machine; tasks are numbered as in [`Event`].
#[derive(Clone, Copy, Debug, PartialEq, Eq)]
pub enum Action {
    /// One local step of `t`.
    Local { t: u32 },
    /// `t` joins an entry's queue, or begins to wait.
    Arrive { t: u32 },
    /// The rendezvous of the caller `c` starts.
    Start { c: u32 },
    /// The innermost rendezvous of the acceptor `a` ends.
    Finish { a: u32 },
    /// `a` takes the else part of its selective wait.
    Else { a: u32 },
    /// `a` takes its `k`-th delay alternative.
    Delay { a: u32, k: u32 },
    /// `c` takes the else part of its conditional call.
    CallElse { c: u32 },
    /// `c` takes the delay alternative of its timed call.
    Expire { c: u32 },
    /// The call of `c` fails.
    Fail { c: u32 },
    /// `a` completes.
    Complete { a: u32 },
    /// `t` aborts the task that its abort statement names next.
    Abort { t: u32 },
    /// The program ends.
    End,
}

/// How a task stands in the machine. A waiting task has no data here: its open alternatives are those
/// of the statement at which it stands, and nothing changes them while it waits.
#[derive(Clone, Copy, Debug, PartialEq, Eq)]
pub enum Standing {
    /// It can act by itself.
    Live,
    /// It waits at an accept statement or a selective wait.
    Waiting,
    /// It stands in the queue of the entry that it calls.
    Queued,
    /// It is the caller in a rendezvous with the acceptor `by`; abnormal once it was aborted there.
    Served { by: u32, abnormal: bool },
    /// It has completed: at its end, by aborting itself, or as an abnormal caller whose rendezvous has ended.
    Completed,
    /// Another task aborted it while it was neither closed nor served.
    Killed,
}
