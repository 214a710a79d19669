// The predefined types and names.

ghost use Rattle.std.specs.Prelude.{◌≡◌, IfOk};
ghost use Rattle.ada_static_rules.specs.Declaring.{predefined_types, predefined_names, first_mark};
ghost use Rattle.ada_scopes.specs.Denotations.{plain_thing, plain_names};
ghost use Rattle.ada_scopes.specs.inner.Before.{thing_of};

use crate::denotations::Thing;
use crate::table::Table;
use ada_tree::{Kind, Mark, NameId};
use scoped_names::ScopedNames;
use std::alloc::{AllocError, Global};

/// What a predefined name is: a type or subtype, by the place of its mark, a truth value, an exception, or a package or procedure.
#[derive(Clone, Copy)]
enum Predefined {
    Mark(u32),
    TruthValue,
    Exception,
    Library,
}

// The predefined names, the last one first.
const PREDEFINED: [(NameId, Predefined); 18] = [
    (NameId::GET, Predefined::Library),
    (NameId::NEW_LINE, Predefined::Library),
    (NameId::PUT_LINE, Predefined::Library),
    (NameId::PUT, Predefined::Library),
    (NameId::INTEGER_IO, Predefined::Library),
    (NameId::TEXT_IO, Predefined::Library),
    (NameId::END_ERROR, Predefined::Exception),
    (NameId::STORAGE_ERROR, Predefined::Exception),
    (NameId::TASKING_ERROR, Predefined::Exception),
    (NameId::PROGRAM_ERROR, Predefined::Exception),
    (NameId::NUMERIC_ERROR, Predefined::Exception),
    (NameId::CONSTRAINT_ERROR, Predefined::Exception),
    (NameId::TRUE, Predefined::TruthValue),
    (NameId::FALSE, Predefined::TruthValue),
    (NameId::BOOLEAN, Predefined::Mark(3)),
    (NameId::POSITIVE, Predefined::Mark(2)),
    (NameId::NATURAL, Predefined::Mark(1)),
    (NameId::INTEGER, Predefined::Mark(0)),
];

// What a predefined name means.
fn thing(predefined: Predefined) -> Thing
    ensures { plain_thing result ≡ thing_of predefined }
{
    match predefined {
        Predefined::Mark(place) => Thing::TypeMark(place),
        Predefined::TruthValue => Thing::Literal(1),
        Predefined::Exception => Thing::AnException,
        Predefined::Library => Thing::AnotherUnit,
    }
}

/// The predefined names with what they mean.
pub(crate) fn first_names(alloc: Global) -> Result<ScopedNames<Thing>, AllocError>
    ensures { IfOk result (λ names. plain_names names ≡ predefined_names) }
{
    let mut names = ScopedNames::new(alloc);
    for (name, predefined) in &PREDEFINED {
        names.declare(name.0, thing(*predefined))?;
    }
    Ok(names)
}

// The mark of a predefined type or subtype.
fn mark(name: NameId, kind: u32, first: i32, last: i32) -> Mark
    ensures { result ≡ first_mark name.0 kind first last }
{
    Mark {
        name: Some(name),
        kind,
        first,
        last,
    }
}

/// INTEGER, NATURAL, POSITIVE and BOOLEAN.
pub(crate) fn first_table(alloc: Global) -> Result<Table, AllocError>
    ensures { IfOk result (λ table. table ≡ predefined_types) }
{
    Table::new(alloc)
        .with_kind(Kind::Integer)?
        .with_kind(Kind::Truth)?
        .with_mark(mark(NameId::INTEGER, 0, -2147483648, 2147483647))?
        .with_mark(mark(NameId::NATURAL, 0, 0, 2147483647))?
        .with_mark(mark(NameId::POSITIVE, 0, 1, 2147483647))?
        .with_mark(mark(NameId::BOOLEAN, 1, 0, 1))
}
