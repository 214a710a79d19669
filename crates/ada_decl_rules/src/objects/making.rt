// What declarations add to the table.

ghost use Rattle.std.specs.Prelude.{◌≡◌, option_map, Some, None, IfOk};
ghost use Rattle.ada_tree.specs.declared.static_types.Kind.TheVariants.{Array};
ghost use Rattle.ada_static_rules.specs.Declaring.{mark_for, made, made_array, renamed};
ghost use Rattle.ada_scopes.specs.Entries.{plain_range};
ghost use Rattle.ada_expr_rules.specs.Ranges.{made_as};
ghost use Rattle.ada_scopes.specs.Makings.{IsMade};

use ada_expr_rules::ranges::Making;
use ada_scopes::denotations::Range;
use ada_scopes::scope::Scope;
use ada_tree::{Kind, Mark, NameId, Word};
use std::alloc::AllocError;

/// A bound or a value as it is kept, for which there is no room outside 32 bits.
pub fn bound(value: i64) -> Result<i32, AllocError>
    ensures { IfOk result (λ n. n ≡ value) }
{
    match i32::try_from(value) {
        Ok(bound) => Ok(bound),
        Err(_) => Err(AllocError),
    }
}

// The mark of a range.
fn mark_of(name: Option<NameId>, range: Range) -> Result<Mark, AllocError>
    ensures { IfOk result (λ mark. mark ≡ mark_for name (plain_range range)) }
{
    let first = bound(range.first)?;
    let last = bound(range.last)?;
    Ok(Mark {
        name,
        kind: range.kind,
        first,
        last,
    })
}

// Adds a mark, and tells its place.
fn add(scope: Scope, mark: Mark) -> Result<(Scope, Option<u32>), AllocError>
    ensures { IfOk result (λ r. IsMade scope (made scope.types mark) r.0 r.1) }
{
    let place = scope.table().next_mark()?;
    let scope = scope.with_mark(mark)?;
    Ok((scope, Some(place)))
}

/// Makes the mark of a subtype indication, where there is to be a new one.
pub fn make(scope: Scope, making: Making) -> Result<(Scope, Option<u32>), AllocError>
    ensures { IfOk result (λ r. IsMade scope (made_as scope.types making) r.0 r.1) }
{
    match making {
        Making::Named(place) => Ok((scope, Some(place))),
        Making::Ranged(range) => add(scope, mark_of(None, range)?),
        Making::Refused => Ok((scope, None)),
    }
}

/// Makes a subtype of a name, of the range that its subtype indication has.
pub fn make_subtype(
    scope: Scope,
    name: Word,
    range: Option<Range>,
) -> Result<(Scope, Option<u32>), AllocError>
    ensures { IfOk result (λ r. IsMade scope (renamed name scope.types (option_map plain_range range)) r.0 r.1) }
{
    match range {
        Some(range) => add(scope, mark_of(Some(name.name), range)?),
        None => Ok((scope, None)),
    }
}

// The kind of an array.
fn array_of(index: Range, part: u32) -> Result<Kind, AllocError>
    ensures { IfOk result (λ kind. kind ≡ Array index.kind index.first index.last part) }
{
    let first = bound(index.first)?;
    let last = bound(index.last)?;
    Ok(Kind::Array {
        index: index.kind,
        first,
        last,
        part,
    })
}

// The mark of an array, of which the kind stands at a place.
fn array_mark(name: Option<NameId>, kind: u32, index: Range) -> Result<Mark, AllocError>
    ensures { IfOk result (λ mark. mark ≡ record { name = name; kind = kind; first = index.first; last = index.last }) }
{
    let first = bound(index.first)?;
    let last = bound(index.last)?;
    Ok(Mark {
        name,
        kind,
        first,
        last,
    })
}

// Adds the kind and the mark of an array.
fn add_array(
    scope: Scope,
    name: Option<NameId>,
    index: Range,
    part: u32,
) -> Result<(Scope, Option<u32>), AllocError>
    ensures { IfOk result (λ r. IsMade scope (made_array name scope.types (Some (plain_range index)) (Some part)) r.0 r.1) }
{
    let place = scope.table().next_kind()?;
    let array = array_of(index, part)?;
    let mark = array_mark(name, place, index)?;
    add(scope.with_kind(array)?, mark)
}

/// Makes an array with that index range and components of that mark, where both are known.
pub fn make_array(
    scope: Scope,
    name: Option<NameId>,
    index: Option<Range>,
    part: Option<u32>,
) -> Result<(Scope, Option<u32>), AllocError>
    ensures { IfOk result (λ r. IsMade scope (made_array name scope.types (option_map plain_range index) part) r.0 r.1) }
{
    match index {
        Some(index) => match part {
            Some(part) => add_array(scope, name, index, part),
            None => Ok((scope, None)),
        },
        None => Ok((scope, None)),
    }
}
