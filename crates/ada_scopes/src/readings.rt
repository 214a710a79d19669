// What a name is in an expression, and what it is as a mark.

ghost use Rattle.std.specs.Prelude.{◌≡◌};
ghost use Rattle.ada_static_rules.specs.Scope.{mark_at, reading, reading_of_mark, marking, marking_of_mark};
ghost use Rattle.ada_scopes.specs.Readings.{plain_reading, plain_marking};

use crate::denotations::{Entries, Range, Thing};
use crate::scope::Scope;
use crate::table::Table;
use ada_tree::{Kind, NameId};
use std::rc::Rc;

/// A value of a scalar kind, an array with the kind of its index and the mark of its components, no value, a name that is not declared before, or one whose declaration is refused.
#[derive(Clone, Copy)]
pub enum Reading {
    Scalar(u32),
    Array { index: u32, part: u32 },
    NoValue,
    Unknown,
    Unclear,
}

/// A scalar mark with its kind, an array's with the range of its index and the mark of its components, a task type, no mark, a name that is not declared before, or one whose declaration is refused.
#[derive(Clone, Copy)]
pub enum Marking<'a> {
    Scalar { mark: u32, kind: u32 },
    Array { mark: u32, range: Range, part: u32 },
    Task(&'a Rc<Entries>),
    NoMark,
    Unknown,
    Unclear,
}

// What an object of a mark is in an expression.
fn reading_at(table: &Table, place: u32) -> Reading
    ensures { plain_reading result ≡ reading_of_mark table.now (mark_at table.now place) }
{
    match table.mark(place) {
        Some(mark) => match table.kind(mark.kind) {
            Some(Kind::Array { index, part, .. }) => Reading::Array {
                index: *index,
                part: *part,
            },
            Some(_) => Reading::Scalar(mark.kind),
            None => Reading::Unclear,
        },
        None => Reading::Unclear,
    }
}

// What a mark is.
fn marking_at(table: &Table, place: u32) -> Marking<'static>
    ensures { plain_marking result ≡ marking_of_mark table.now place (mark_at table.now place) }
{
    match table.mark(place) {
        Some(mark) => match table.kind(mark.kind) {
            Some(
                Kind::Array {
                    index,
                    first,
                    last,
                    part,
                },
            ) => Marking::Array {
                mark: place,
                range: Range {
                    kind: *index,
                    first: *first as i64,
                    last: *last as i64,
                },
                part: *part,
            },
            Some(_) => Marking::Scalar {
                mark: place,
                kind: mark.kind,
            },
            None => Marking::Unclear,
        },
        None => Marking::Unclear,
    }
}

/// What a name is in an expression.
pub fn read(scope: &Scope, id: NameId) -> Reading
    ensures { plain_reading result ≡ reading scope.now id }
{
    match scope.meaning(id) {
        Some(thing) => match thing {
            Thing::Variable(mark)
            | Thing::ConstantObject(mark)
            | Thing::Parameter(_, mark)
            | Thing::LoopParameter(mark) => reading_at(scope.table(), *mark),
            Thing::Literal(kind) => Reading::Scalar(*kind),
            Thing::Unclear => Reading::Unclear,
            _ => Reading::NoValue,
        },
        None => Reading::Unknown,
    }
}

/// What a name is as a mark.
pub fn mark_named<'a>(scope: &'a Scope, id: NameId) -> Marking<'a>
    ensures { plain_marking result ≡ marking scope.entry.now id }
{
    match scope.meaning(id) {
        Some(thing) => match thing {
            Thing::TypeMark(mark) => marking_at(scope.table(), *mark),
            Thing::TaskType(entries) => Marking::Task(entries),
            Thing::Unclear => Marking::Unclear,
            _ => Marking::NoMark,
        },
        None => Marking::Unknown,
    }
}
