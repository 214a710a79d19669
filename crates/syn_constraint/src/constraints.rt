// Constraints as data.

/// What a pattern asks of one number of an event.
#[derive(Clone, Copy, Debug, PartialEq, Eq)]
pub enum Num {
    /// `*`: every number will do.
    Every,
    /// `?`: the number is the value, which is one for the whole constraint.
    Same,
    /// The number is this one.
    Exact(i64),
}

/// What a pattern asks of the letter of an event.
#[derive(Clone, Copy, Debug, PartialEq, Eq)]
pub enum Letter {
    R,
    E,
    S,
    D,
    C,
    T,
    F,
    X,
    B,
    Z,
    /// `any`: every event will do.
    Whole,
}

/// Which events are meant: those with the letter and the numbers, in the order in which a line has them. A number that the letter lacks stands as
/// [`Num::Every`].
#[derive(Clone, Copy, Debug, PartialEq, Eq)]
pub struct Pattern {
    pub letter: Letter,
    pub one: Num,
    pub two: Num,
    pub three: Num,
}

/// A demand on a sequence of events.
#[derive(Clone, Copy, Debug, PartialEq, Eq)]
pub enum Constraint {
    /// `before A B`: an event that matches B, `late`, comes only behind one that matches A, `early`.
    Before {
        early: Pattern,
        late: Pattern,
    },
    /// `most N X A B`: behind an event that matches A, `opens`, and before the next that matches B, `closes`, at most N events match X, `counted`.
    /// `never X A B` is this with N being 0.
    Most {
        limit: u32,
        counted: Pattern,
        opens: Pattern,
        closes: Pattern,
    },
}
