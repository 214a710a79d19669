// What a run comes to.

/// How a run ended: by the end of the program, where nothing applies any more, or since all turns were made and more actions apply.
#[derive(Clone, Copy, Debug, PartialEq, Eq)]
pub enum RunEnd {
    Ended,
    Stuck,
    Turns,
}

/// How a run ended, and how many actions it made.
#[derive(Clone, Copy, Debug, PartialEq, Eq)]
pub struct RunReport {
    pub end: RunEnd,
    pub made: u64,
}
