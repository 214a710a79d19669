// What a program declares of types and constants, as plain data.

ghost use Rattle.std.specs.Prelude.{◌≡◌};

use crate::NameId;
use std::marker::Model;

/// The types, subtypes and constants of a program. A contract sees the record of the three lists.
///
/// `kinds` begins with INTEGER and BOOLEAN, `marks` with INTEGER, NATURAL, POSITIVE and BOOLEAN. The others stand in the order in which they end in the source, and of two that end together the inner one comes first.
#[derive(Drop)]
pub struct Types {
    pub kinds: Vec<Kind>,
    pub marks: Vec<Mark>,
    pub constants: Vec<Constant>,
}

impl Model for Types {
    ghost use Rattle.ada_tree.specs.TypeTable.{TypeTable};

    ghost Value = { TypeTable };

    ghost view = { λ a. record { kinds = a.kinds.items; marks = a.marks.items; constants = a.constants.items } };
}

/// A type. `index` is the place of the kind of the index, and `part` the place of the mark of the components, both from 0.
#[derive(Drop)]
pub enum Kind {
    Integer,
    Truth,
    Enumeration {
        literals: Literals,
    },
    Array {
        index: u32,
        first: i32,
        last: i32,
        part: u32,
    },
}

/// The literals of an enumeration, in order of their positions. A contract sees the list of their names.
#[derive(Drop)]
pub struct Literals {
    names: Vec<NameId>,
}

impl Model for Literals {
    ghost use Rattle.std.specs.Prelude.{List};
    ghost use Rattle.ada_tree.specs.declared.naming.NameId.{NameId};

    ghost Value = { List NameId };

    ghost view = { λ a. a.names.items };
}

impl Literals {
    /// The literals with these names, in order of their positions.
    pub fn new(names: Vec<NameId>) -> Self
        ensures { result ≡ names.items }
    {
        Literals { names }
    }

    /// The names, in order of their positions.
    pub fn as_slice(&self) -> &[NameId]
        ensures { result.now ≡ self.now }
    {
        self.names.as_slice()
    }
}

/// A type or subtype: its name, where it has one, the place of its kind from 0, and its bounds. Values of BOOLEAN and of an enumeration are positions from 0. The mark of an array has the bounds of its index.
#[derive(Clone, Copy, Debug, PartialEq, Eq)]
pub struct Mark {
    pub name: Option<NameId>,
    pub kind: u32,
    pub first: i32,
    pub last: i32,
}

/// A named number or a scalar constant of the main procedure: its name, the place of its mark from 0, and its value. A named number has the mark INTEGER.
#[derive(Clone, Copy, Debug, PartialEq, Eq)]
pub struct Constant {
    pub name: NameId,
    pub mark: u32,
    pub value: i32,
}
