// The types by whose positions the members of families are told.

ghost use Rattle.std.specs.Prelude.{◌≡◌, ◌+◌, ◌<◌, IfOk, option_map, Some};
ghost use Rattle.ada_tree.specs.PlainExpr.{plain_drange};
ghost use Rattle.normal_model.specs.Ranges.{kind_of_range};
ghost use Rattle.normal_parts.specs.Marking.{mark_of_kind, mark_of_range, mark_at, marks_of};

use ada_tree::{Drange, Kind, Memory, NameId};
use normal_lookups::Lookups;
use std::alloc::Global;

// The type whose positions stand for the values of a kind.
fn mark_of_kind(lookups: &Lookups, kind: u32, what: Option<&Kind>) -> Option<NameId>
    ensures { result ≡ mark_of_kind lookups.now.types kind (option_map (λ k. k.now) what.entry) }
{
    match what {
        Some(Kind::Integer) => None,
        Some(Kind::Truth) => Some(lookups.kind_name(kind)),
        Some(Kind::Enumeration { .. }) => Some(lookups.kind_name(kind)),
        Some(Kind::Array { .. }) => Some(lookups.kind_name(kind)),
        None => Some(lookups.kind_name(kind)),
    }
}

// The type whose positions stand for the values of a range.
fn mark_of(lookups: &Lookups, range: &Drange) -> Option<NameId>
    ensures { result ≡ mark_of_range lookups.now.types (Some (plain_drange range.now)) }
{
    let kind = lookups.kind_of_range(range);
    let types = lookups.links().types().types();
    mark_of_kind(lookups, kind, types.kinds.get(kind as usize))
}

// The type whose positions stand for the indices of an entry.
fn mark_at(lookups: &Lookups, entry: u32) -> Option<NameId>
    ensures { result ≡ mark_at lookups.now entry }
{
    match lookups.family_range(entry) {
        Some(range) => mark_of(lookups, range),
        None => None,
    }
}

/// The marks of all entries, from 1. The only error is want of memory.
pub fn marks_of(alloc: Global, lookups: &Lookups) -> Result<Vec<Option<NameId>>, Memory>
    ensures { IfOk result (λ marks. marks.items ≡ marks_of lookups.now) }
{
    let mut marks = Vec::new(alloc);
    let mut entry = 0u32;
    for _info in lookups.links().numbers().entries.iter() {
        entry = next(entry)?;
        marks.push(mark_at(lookups, entry))?;
    }
    Ok(marks)
}

// The next number; want of memory where there is none.
fn next(n: u32) -> Result<u32, Memory>
    ensures { IfOk result (λ m. m ≡ n + 1) }
{
    match n.checked_add(1) {
        Some(next) => Ok(next),
        None => Err(Memory),
    }
}
