//! A value of a scalar type, an exception, and a subtype by its content.

use ada_tree::NameId;

/// A value of a scalar type (3.5).
#[derive(Clone, Copy, Debug, PartialEq, Eq)]
pub enum Value {
    /// A value of INTEGER.
    Number(i32),
    /// A value of BOOLEAN.
    Truth(bool),
    /// A value of the enumeration at the place `kind` of the kinds, from 0, by its position `pos`, from 0.
    Place { kind: u32, pos: u32 },
}

/// An exception: one of the predefined ones (11.1) or one that the program declares, by its name.
#[derive(Clone, Copy, Debug, PartialEq, Eq)]
pub enum Raised {
    Constraint,
    Numeric,
    Program,
    Tasking,
    Storage,
    End,
    Other(NameId),
}

/// A subtype by its content: the kind of its values, by its place in the table from 0, and its bounds, as positions (3.3). A discrete range is one too (3.6).
#[derive(Clone, Copy, Debug, PartialEq, Eq)]
pub struct Limits {
    pub kind: u32,
    pub first: i64,
    pub last: i64,
}

/// What an object is by its content: the subtype of its value, or of its components, and for an array the range of its index (3.3, 3.6).
#[derive(Clone, Copy, Debug, PartialEq, Eq)]
pub struct Form {
    pub limits: Limits,
    pub index: Option<Limits>,
}
