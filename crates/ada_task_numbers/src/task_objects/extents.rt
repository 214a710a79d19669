// The values that discrete ranges with static bounds have.

ghost use Rattle.std.specs.Prelude.{◌≡◌, pos, ◌+ℤ◌, ◌-ℤ◌, option_map};
ghost use Rattle.ada_tree.specs.PlainExpr.{plain_expr, plain_bounds, plain_drange};
ghost use Rattle.syn_event.specs.Extents.{fixed, bounds_extent, mark_extent, marked_extent, extent, count_to, size_of, known_size, size, range_start, is_array_type};
ghost use Rattle.ada_check_rules.specs.rules.Amounts.{capped};
ghost use Rattle.ada_task_numbers.specs.task_objects.PlainNames.{plain_extent};

use ada_scopes::values::named_values::mark_of;
use ada_scopes::values::static_values::static_value;
use ada_tree::{Bounds, Drange, Expr, Kind, NameId, Span, Types};

/// The first and the last value of a discrete range with static bounds.
#[derive(Clone, Copy)]
pub struct Extent {
    pub first: i64,
    pub last: i64,
}

/// The value of a static expression in which nothing raises.
pub(crate) fn fixed(types: &Types, e: &Expr) -> Option<i64>
    ensures { result ≡ fixed types.now (plain_expr e.now) }
{
    match static_value(e, types) {
        Ok(value) => Some(value),
        Err(_) => None,
    }
}

// The extent of static bounds.
fn bounds_extent(types: &Types, bounds: &Bounds) -> Option<Extent>
    ensures { option_map plain_extent result ≡ bounds_extent types.now (plain_bounds bounds.now) }
{
    match (fixed(types, &bounds.first), fixed(types, &bounds.last)) {
        (Some(first), Some(last)) => Some(Extent { first, last }),
        _ => None,
    }
}

// The extent of a type or subtype.
fn mark_extent(types: &Types, id: NameId) -> Option<Extent>
    ensures { option_map plain_extent result ≡ mark_extent types.now id }
{
    match mark_of(types, id) {
        Some(mark) => Some(Extent {
            first: mark.first as i64,
            last: mark.last as i64,
        }),
        None => None,
    }
}

// The extent of a range of a mark, with bounds of its own or those of the mark.
fn marked_extent(types: &Types, id: NameId, bounds: &Option<Bounds>) -> Option<Extent>
    ensures { option_map plain_extent result ≡ marked_extent types.now id (option_map plain_bounds bounds.now) }
{
    match bounds {
        Some(bounds) => bounds_extent(types, bounds),
        None => mark_extent(types, id),
    }
}

/// The extent of a discrete range, where its bounds are static and none of them raises.
pub fn extent_of(types: &Types, range: &Drange) -> Option<Extent>
    ensures { option_map plain_extent result ≡ extent types.now (plain_drange range.now) }
{
    match range {
        Drange::Given(bounds) => bounds_extent(types, bounds),
        Drange::Marked(subind) => marked_extent(types, subind.mark.name, &subind.bounds),
    }
}

// A number of values, counted as far as limits go; none below 0.
#[tactic(auto, using(crate::proofs::task_objects::Reaching::small_count))]
fn count_to(width: i128) -> u64
    ensures { result ≡ capped (count_to width) }
{
    if width < 0 {
        0
    } else if width < 2147483648 {
        width as u64
    } else {
        2147483648
    }
}

// How many values an extent has, where it is not empty.
pub fn width(x: Extent) -> i128
    ensures { result ≡ (x.last -ℤ x.first) +ℤ pos 1 }
{
    x.last as i128 - x.first as i128 + 1
}

// How many values there are from a number to another one, counted as far as limits go.
fn size_of(x: Extent) -> u64
    ensures { result ≡ capped (size_of (plain_extent x)) }
{
    count_to(width(x))
}

// How many values an extent has; none where it is not known.
fn known_size(x: Option<Extent>) -> u64
    ensures { result ≡ capped (known_size (option_map plain_extent x)) }
{
    match x {
        Some(x) => size_of(x),
        None => 0,
    }
}

/// How many values a discrete range has, counted as far as limits go; none where its bounds are not known.
pub fn size(types: &Types, range: &Drange) -> u64
    ensures { result ≡ capped (size types.now (plain_drange range.now)) }
{
    known_size(extent_of(types, range))
}

/// Where a discrete range starts: with its first bound or with its mark.
pub fn range_start(range: &Drange) -> Span
    ensures { result ≡ range_start (plain_drange range.now) }
{
    match range {
        Drange::Given(bounds) => bounds.first.span,
        Drange::Marked(subind) => subind.mark.span,
    }
}

/// Whether a name is that of an array type.
pub fn is_array_type(types: &Types, id: NameId) -> bool
    ensures { result ≡ is_array_type types.now id }
{
    match mark_of(types, id) {
        Some(mark) => match types.kinds.get(mark.kind as usize) {
            Some(Kind::Array { .. }) => true,
            _ => false,
        },
        None => false,
    }
}
