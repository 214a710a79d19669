// Ranges, subtype indications and discrete ranges.

ghost use Rattle.std.specs.Prelude.{◌≡◌, ◌++◌, Some, None, option_map};
ghost use Rattle.ada_tree.specs.PlainExpr.{plain_expr, plain_bounds, plain_subind, plain_drange};
ghost use Rattle.ada_static_rules.specs.Scope as scope;
ghost use Rattle.ada_static_rules.specs.Demand.{must_not_be_empty, must_lie_in};
ghost use Rattle.ada_static_rules.specs.Declaring.{subind_made, marked_range};
ghost use Rattle.ada_static_rules.specs.RuleRangeBad.{is_below, is_outside};
ghost use Rattle.ada_static_rules.specs.Sites.{expr_sites, static_if, bounds_sites, constraint_sites, subind_sites, drange_sites};
ghost use Rattle.ada_static_rules.specs.Sooner.{found};
ghost use Rattle.ada_static_rules.specs.RefusedFirst.{refused_first_at, refused_first};
ghost use Rattle.ada_scopes.specs.Readings.{plain_marking};
ghost use Rattle.ada_expr_rules.specs.Plain.{plain_use};
ghost use Rattle.ada_scopes.specs.Entries.{plain_range};
ghost use Rattle.ada_expr_rules.specs.Known.{IsKnown, range_of_both, emptied, outlying};
ghost use Rattle.ada_expr_rules.specs.Walked.{IsWalked};
ghost use Rattle.ada_expr_rules.specs.Ranges.{made_as, range_as, ranged, range_if, AreBounds, IsSubind, IsRange};

use crate::known::Known;
use crate::marks::{MarkUse, walk_mark};
use crate::nodes::kind_of_mark;
use crate::walking::{Walked, place, refuse_kind, refuse_not_static, walk};
use ada_scopes::denotations::Range;
use ada_scopes::readings::{Marking, mark_named};
use ada_scopes::scope::Scope;
use ada_static_rules::refusals::{Refusal, Rule, first, refuse_if};
use ada_tree::{Bounds, Drange, Expr, Span, Subind};

/// What is known of two bounds, and the first refusal at the places where they stand.
#[derive(Drop)]
pub struct WalkedBounds {
    pub first: Known,
    pub last: Known,
    pub refusal: Option<Refusal>,
}

/// What a subtype indication makes: a mark that is there, by its place, a new mark of a range, or none where it is refused or has no static range.
#[derive(Clone, Copy)]
pub enum Making {
    Named(u32),
    Ranged(Range),
    Refused,
}

/// The kind of a subtype indication over a scalar mark, what it makes, and the first refusal at the places where it stands.
#[derive(Drop)]
pub struct WalkedSubind {
    pub kind: Option<u32>,
    pub making: Making,
    pub refusal: Option<Refusal>,
}

/// The kind of a discrete range, its values where its bounds are static, and the first refusal at the places where it stands.
#[derive(Drop)]
pub struct WalkedRange {
    pub kind: Option<u32>,
    pub range: Option<Range>,
    pub refusal: Option<Refusal>,
}

// Whether one value is smaller than another one.
fn is_below(one: Option<i64>, other: Option<i64>) -> bool
    ensures { result ≡ is_below one other }
{
    match one {
        Some(one) => match other {
            Some(other) => one < other,
            None => false,
        },
        None => false,
    }
}

// Whether a value is outside a range.
fn is_outside(range: Range, value: Option<i64>) -> bool
    ensures { result ≡ is_outside (plain_range range) value }
{
    match value {
        Some(value) => value < range.first || range.last < value,
        None => false,
    }
}

// The first of two bounds where the second is the smaller one.
fn refuse_below(low: Known, high: Known, span: Span) -> Option<Refusal>
    ensures { result ≡ found 5 (emptied low.kind low high span) }
{
    match low.kind {
        Some(kind) => {
            let below = is_below(high.value_in(kind), low.value_in(kind));
            refuse_if(below, Rule::RangeBad, span)
        }
        None => None,
    }
}

// A value outside a range.
fn refuse_beyond(range: Option<Range>, known: Known, span: Span) -> Option<Refusal>
    ensures { result ≡ found 5 (outlying (option_map plain_range range) known span) }
{
    match range {
        Some(range) => {
            let outside = is_outside(range, known.value_in(range.kind));
            refuse_if(outside, Rule::RangeBad, span)
        }
        None => None,
    }
}

/// Two static bounds of an empty range.
pub fn refuse_empty(
    scope: &Scope,
    first: &Expr,
    low: Known,
    last: &Expr,
    high: Known,
) -> Option<Refusal>
    requires first { IsKnown scope.now (plain_expr first.now) low }
    requires last { IsKnown scope.now (plain_expr last.now) high }
    ensures { result ≡ refused_first_at scope.now (must_not_be_empty (plain_expr first.now) (plain_expr last.now)) }
{
    refuse_below(low, high, place(first))
}

/// A static value outside a range, where that range is known.
pub fn refuse_outside(
    scope: &Scope,
    e: &Expr,
    known: Known,
    range: Option<Range>,
) -> Option<Refusal>
    requires { IsKnown scope.now (plain_expr e.now) known }
    ensures { result ≡ refused_first_at scope.now (must_lie_in (plain_expr e.now) (option_map plain_range range)) }
{
    refuse_beyond(range, known, place(e))
}

// A bound that must be static and is not.
fn refuse_moving(scope: &Scope, fixed: bool, e: &Expr, known: Known) -> Option<Refusal>
    requires { IsKnown scope.now (plain_expr e.now) known }
    ensures { result ≡ refused_first (static_if fixed scope.now (plain_expr e.now)) }
{
    if fixed {
        refuse_not_static(scope, e, known.kind, known.value)
    } else {
        None
    }
}

/// Walks a bound, which must be static where that is asked.
pub fn walk_bound(scope: &Scope, fixed: bool, e: &Expr) -> Walked
    ensures { IsWalked (expr_sites scope.now (plain_expr e.now) ++ static_if fixed scope.now (plain_expr e.now)) scope.now (plain_expr e.now) result }
{
    let walked = walk(scope, e);
    let moving = refuse_moving(scope, fixed, e, walked.known());
    Walked {
        kind: walked.kind,
        value: walked.value,
        refusal: first(walked.refusal, moving),
    }
}

/// Walks two bounds, which must be static where that is asked.
pub(crate) fn walk_bounds(scope: &Scope, fixed: bool, bounds: &Bounds) -> WalkedBounds
    ensures { AreBounds (bounds_sites fixed scope.now (plain_bounds bounds.now)) scope.now (plain_bounds bounds.now) result }
{
    let low = walk_bound(scope, fixed, &bounds.first);
    let high = walk_bound(scope, fixed, &bounds.last);
    let low_known = low.known();
    let high_known = high.known();
    let empty = refuse_empty(scope, &bounds.first, low_known, &bounds.last, high_known);
    WalkedBounds {
        first: low_known,
        last: high_known,
        refusal: first(first(low.refusal, high.refusal), empty),
    }
}

/// Walks the bounds behind a mark of a kind.
pub(crate) fn walk_constraint(
    scope: &Scope,
    fixed: bool,
    kind: Option<u32>,
    bounds: &Bounds,
) -> WalkedBounds
    ensures { AreBounds (constraint_sites fixed scope.now kind (plain_bounds bounds.now)) scope.now (plain_bounds bounds.now) result }
{
    let walked = walk_bounds(scope, fixed, bounds);
    let low = refuse_kind(scope, kind, &bounds.first, walked.first.kind);
    let high = refuse_kind(scope, kind, &bounds.last, walked.last.kind);
    WalkedBounds {
        first: walked.first,
        last: walked.last,
        refusal: first(walked.refusal, first(low, high)),
    }
}

// The range of two bounds of a kind, where they are static.
fn range_of(kind: u32, low: Known, high: Known) -> Option<Range>
    ensures { option_map plain_range result ≡ range_of_both kind low high }
{
    match low.value_in(kind) {
        Some(first) => match high.value_in(kind) {
            Some(last) => Some(Range { kind, first, last }),
            None => None,
        },
        None => None,
    }
}

// The range of two bounds, where they are static and of one kind.
fn range_between(kind: Option<u32>, low: Known, high: Known) -> Option<Range>
    ensures { option_map plain_range result ≡ range_if kind low high }
{
    match kind {
        Some(kind) => range_of(kind, low, high),
        None => None,
    }
}

// What a mark alone makes.
fn making_of(marking: Marking) -> Making
    ensures made { (scope : scope.Scope) → made_as scope.types result ≡ subind_made scope (plain_marking marking.entry) None }
    ensures range { (scope : scope.Scope) → range_as scope.types result ≡ marked_range scope (plain_marking marking.entry) None }
{
    match marking {
        Marking::Scalar { mark, .. } => Making::Named(mark),
        _ => Making::Refused,
    }
}

// What a range makes.
fn making_of_range(range: Option<Range>) -> Making
    ensures { result ≡ ranged range }
{
    match range {
        Some(range) => Making::Ranged(range),
        None => Making::Refused,
    }
}

/// Walks a subtype indication, whose bounds must be static where that is asked.
pub fn walk_subind(scope: &Scope, fixed: bool, allowed: MarkUse, subind: &Subind) -> WalkedSubind
    ensures { IsSubind (subind_sites fixed (plain_use allowed) scope.now (plain_subind subind.now)) scope.now (plain_subind subind.now) result }
{
    let wrong = walk_mark(scope, allowed, subind.mark);
    let marking = mark_named(scope, subind.mark.name);
    let kind = kind_of_mark(marking);
    match &subind.bounds {
        Some(bounds) => {
            let walked = walk_constraint(scope, fixed, kind, bounds);
            let range = range_between(kind, walked.first, walked.last);
            WalkedSubind {
                kind,
                making: making_of_range(range),
                refusal: first(wrong, walked.refusal),
            }
        }
        None => WalkedSubind {
            kind,
            making: making_of(marking),
            refusal: wrong,
        },
    }
}

/// The range of what a subtype indication makes.
pub fn range_made(scope: &Scope, making: Making) -> Option<Range>
    ensures { option_map plain_range result ≡ range_as scope.now.types making }
{
    match making {
        Making::Named(place) => match scope.table().mark(place) {
            Some(mark) => Some(Range {
                kind: mark.kind,
                first: mark.first as i64,
                last: mark.last as i64,
            }),
            None => None,
        },
        Making::Ranged(range) => Some(range),
        Making::Refused => None,
    }
}

/// Walks a discrete range, whose bounds must be static where that is asked.
pub fn walk_range(scope: &Scope, fixed: bool, range: &Drange) -> WalkedRange
    ensures { IsRange (drange_sites fixed scope.now (plain_drange range.now)) scope.now (plain_drange range.now) result }
{
    match range {
        Drange::Given(bounds) => {
            let walked = walk_bounds(scope, fixed, bounds);
            let (low, high) = (walked.first, walked.last);
            let other = refuse_kind(scope, low.kind, &bounds.last, high.kind);
            WalkedRange {
                kind: low.kind,
                range: range_between(low.kind, low, high),
                refusal: first(walked.refusal, other),
            }
        }
        Drange::Marked(subind) => {
            let walked = walk_subind(scope, fixed, MarkUse::Scalar, subind);
            WalkedRange {
                kind: walked.kind,
                range: range_made(scope, walked.making),
                refusal: walked.refusal,
            }
        }
    }
}
