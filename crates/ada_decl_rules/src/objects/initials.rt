// Initial values.

ghost use Rattle.std.specs.Prelude.{◌≡◌, pos, ◌+ℤ◌, ◌-ℤ◌, map, flat_map, option_map};
ghost use Rattle.std.specs.Ordering.{int_eq};
ghost use Rattle.ada_tree.specs.PlainExpr.{plain_expr};
ghost use Rattle.ada_tree.specs.PlainDecl.{plain_init};
ghost use Rattle.ada_static_rules.specs.Demand.{for_scalar, for_array};
ghost use Rattle.ada_static_rules.specs.RuleArrayUse.{wrong_initial};
ghost use Rattle.ada_static_rules.specs.Sites.{value_sites, free_value_sites, scalar_init_sites, array_init_sites, all_init_sites};
ghost use Rattle.ada_static_rules.specs.Sooner.{found};
ghost use Rattle.ada_static_rules.specs.RefusedFirst.{refused_first};
ghost use Rattle.ada_scopes.specs.Entries.{plain_range};
ghost use Rattle.ada_decl_rules.specs.objects.inner.Initials.{holder_sites};

use ada_expr_rules::ranges::{refuse_outside, walk_bound};
use ada_expr_rules::walking::{place, walk_static};
use ada_scopes::denotations::Range;
use ada_scopes::scope::Scope;
use ada_static_rules::refusals::{Refusal, Rule, first, refuse};
use ada_tree::{Expr, Init};

/// What an initial value is for: a scalar of a range, an array with the range of its index and that of its components, or an object whose declaration is refused.
#[derive(Clone, Copy)]
pub(crate) enum Holder {
    Scalar(Option<Range>),
    Array(Range, Option<Range>),
    Unclear,
}

// The kind of a range, where it is known.
fn kind_of_range(range: Option<Range>) -> Option<u32>
    ensures { result ≡ option_map (λ r. r.kind) (option_map plain_range range) }
{
    match range {
        Some(range) => Some(range.kind),
        None => None,
    }
}

// Walks an initial value in a range.
fn walk_value(scope: &Scope, range: Option<Range>, e: &Expr) -> Option<Refusal>
    ensures { result ≡ refused_first (value_sites scope.now (option_map plain_range range) (plain_expr e.now)) }
{
    let walked = walk_static(scope, kind_of_range(range), e);
    let outside = refuse_outside(scope, e, walked.known(), range);
    first(walked.refusal, outside)
}

// Walks an initial value in which nothing has a kind to meet.
fn walk_free(scope: &Scope, e: &Expr) -> Option<Refusal>
    ensures { result ≡ refused_first (free_value_sites scope.now (plain_expr e.now)) }
{
    walk_bound(scope, true, e).refusal
}

// Walks initial values in a range.
fn walk_values(scope: &Scope, range: Option<Range>, list: &[Expr]) -> Option<Refusal>
    ensures { result ≡ refused_first (flat_map (value_sites scope.now (option_map plain_range range)) (map plain_expr list.now)) }
{
    let mut refusal = None;
    for e in list {
        refusal = first(refusal, walk_value(scope, range, e));
    }
    refusal
}

// Walks initial values in which nothing has a kind to meet.
fn walk_all_free(scope: &Scope, list: &[Expr]) -> Option<Refusal>
    ensures { result ≡ refused_first (flat_map (free_value_sites scope.now) (map plain_expr list.now)) }
{
    let mut refusal = None;
    for e in list {
        refusal = first(refusal, walk_free(scope, e));
    }
    refusal
}

// Walks the initial value of a scalar.
fn walk_scalar(scope: &Scope, range: Option<Range>, init: &Init) -> Option<Refusal>
    ensures { result ≡ refused_first (scalar_init_sites scope.now (option_map plain_range range) (plain_init init.now)) }
{
    match init {
        Init::One(e) => walk_value(scope, range, e),
        Init::List { parts, .. } => walk_all_free(scope, parts),
        Init::Others { part, .. } => walk_free(scope, part),
    }
}

// Walks the initial value of an array.
fn walk_array(scope: &Scope, range: Option<Range>, init: &Init) -> Option<Refusal>
    ensures { result ≡ refused_first (array_init_sites scope.now (option_map plain_range range) (plain_init init.now)) }
{
    match init {
        Init::One(e) => walk_free(scope, e),
        Init::List { parts, .. } => walk_values(scope, range, parts),
        Init::Others { part, .. } => walk_value(scope, range, part),
    }
}

// Walks the initial value of an object whose declaration is refused.
fn walk_any(scope: &Scope, init: &Init) -> Option<Refusal>
    ensures { result ≡ refused_first (all_init_sites scope.now (plain_init init.now)) }
{
    match init {
        Init::One(e) => walk_free(scope, e),
        Init::List { parts, .. } => walk_all_free(scope, parts),
        Init::Others { part, .. } => walk_free(scope, part),
    }
}

// A list or one value for all, for a scalar.
fn refuse_list(init: &Init) -> Option<Refusal>
    ensures { result ≡ found 10 (wrong_initial for_scalar (plain_init init.now)) }
{
    match init {
        Init::One(_) => None,
        Init::List { span, .. } => refuse(Rule::ArrayUse, *span),
        Init::Others { span, .. } => refuse(Rule::ArrayUse, *span),
    }
}

// How many values a range has, where it is not empty.
fn width(range: Range) -> i128
    ensures { result ≡ range.last -ℤ range.first +ℤ pos 1 }
{
    range.last as i128 - range.first as i128 + 1
}

// Whether two numbers are equal.
fn is_equal(one: i128, other: i128) -> bool
    ensures { result ≡ int_eq one other }
{
    one == other
}

// Whether a list has a value for each index.
fn is_whole(index: Range, count: usize) -> bool
    ensures { result ≡ int_eq (pos count) (index.last -ℤ index.first +ℤ pos 1) }
{
    is_equal(count as i128, width(index))
}

// A single expression or a list of another length, for an array.
#[tactic(auto, using(ada_static_rules::proofs::Listing::counted))]
fn refuse_short(index: Range, init: &Init) -> Option<Refusal>
    ensures { result ≡ found 10 (wrong_initial (for_array (plain_range index)) (plain_init init.now)) }
{
    match init {
        Init::One(e) => refuse(Rule::ArrayUse, place(e)),
        Init::List { parts, span } => {
            if is_whole(index, parts.len()) {
                None
            } else {
                refuse(Rule::ArrayUse, *span)
            }
        }
        Init::Others { .. } => None,
    }
}

/// Walks an initial value, by what it is for.
pub(crate) fn walk_init(scope: &Scope, holder: Holder, init: &Init) -> Option<Refusal>
    ensures { result ≡ refused_first (holder_sites scope.now holder (plain_init init.now)) }
{
    match holder {
        Holder::Scalar(range) => {
            let values = walk_scalar(scope, range, init);
            let list = refuse_list(init);
            first(values, list)
        }
        Holder::Array(index, part) => {
            let values = walk_array(scope, part, init);
            let short = refuse_short(index, init);
            first(values, short)
        }
        Holder::Unclear => walk_any(scope, init),
    }
}
