// What a judge answers of a list of events.

/// What stands in the way of an event.
#[derive(Clone, Copy, Debug, PartialEq, Eq)]
pub enum Cause {
    /// The task is closed: completed or abnormal.
    Closed,
    /// The task is the caller in a rendezvous.
    Busy,
    /// The task is not closed, and had to be.
    NotClosed,
    /// The task does not offer what the event needs.
    Offer,
}

/// Why an event can't happen: the first of its conditions that fails, and the task of which that condition asks.
#[derive(Clone, Copy, Debug, PartialEq, Eq)]
pub struct Why {
    pub cause: Cause,
    /// The task's number, from 0.
    pub task: u32,
}

/// What a list of events is found to be. Events are counted from 1.
#[derive(Clone, Copy, Debug, PartialEq, Eq)]
pub enum Verdict {
    /// Some run has exactly these events.
    Feasible,
    /// The events before the one at this place are feasible, and with it they are not.
    Infeasible { at: u32, why: Why },
    /// The events before the one at this place are feasible, and a task that it needs has made as many local steps
    /// as were allowed, and has one more.
    Unsettled { at: u32, task: u32 },
}
