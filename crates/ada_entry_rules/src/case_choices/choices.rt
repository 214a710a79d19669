// Case choices: what the rules refuse first at each, and at all of a case.

ghost use Rattle.std.specs.Prelude.{◌≡◌, ◌++◌, ◌∷◌, [], ◌&&◌, not, if◌then◌else◌, ◌↔◌, ℤ, Bool, true, List, IfOk, map, flat_map, option_map};
ghost use Rattle.std.specs.List.{list_any};
ghost use Rattle.ada_tree.specs.PlainExpr.{plain_expr};
ghost use Rattle.ada_tree.specs.PlainStmt.{PChoice, plain_choice, plain_case_arm, case_arms_of};
ghost use Rattle.ada_static_rules.specs.Scope.{Scope as PlainScope, Range as PlainRange, kind_at, range_of_mark};
ghost use Rattle.ada_static_rules.specs.ExprTypes.{kind_of, static_in, range_between};
ghost use Rattle.ada_static_rules.specs.Demand.{chooses};
ghost use Rattle.ada_static_rules.specs.RuleChoiceBad.{selected_range, mark_of_object, range_of_kind, choice_range, choice_span, with_range, overlaps_one, is_good, left_out, values_in};
ghost use Rattle.ada_static_rules.specs.Sites.{choice_sites, arm_choices};
ghost use Rattle.ada_static_rules.specs.Sooner.{found};
ghost use Rattle.ada_static_rules.specs.RefusedFirst.{refused_first, refused_first_at};
ghost use Rattle.ada_scopes.specs.Entries.{plain_range};
ghost use Rattle.ada_entry_rules.specs.case_choices.Covers.{Covers};
ghost use Rattle.ada_entry_rules.specs.case_choices.inner.Chosen.{AreChosen, Shows, bound_sites};
ghost use Rattle.ada_expr_rules.specs.Walked.{IsWalked};

use crate::case_choices::covered::Covered;
use ada_expr_rules::kinds::INTEGER;
use ada_expr_rules::ranges::{refuse_empty, refuse_outside};
use ada_expr_rules::walking::{Walked, place, walk, walk_static};
use ada_scopes::denotations::{Range, Thing};
use ada_scopes::readings::{Reading, read};
use ada_scopes::scope::Scope;
use ada_static_rules::refusals::{Refusal, Rule, first, refuse_if};
use ada_tree::{CaseArm, CaseChoice, Expr, ExprKind, Kind, Span};
use std::alloc::{AllocError, Global};

// The choices of a case that were looked at: their values, the first that overlaps an earlier one, and whether each is static, not empty and within the selector's values.
#[derive(Drop)]
pub struct Chosen {
    covered: Covered,
    refusal: Option<Refusal>,
    good: bool,
}

// The mark of the object that a selector names.
fn mark_of_object(scope: &Scope, e: &Expr) -> Option<u32>
    ensures { result ≡ mark_of_object scope.now (plain_expr e.now) }
{
    match &e.kind {
        ExprKind::Name(id) => match scope.meaning(*id) {
            Some(thing) => match thing {
                Thing::Variable(mark)
                | Thing::ConstantObject(mark)
                | Thing::Parameter(_, mark)
                | Thing::LoopParameter(mark) => Some(*mark),
                _ => None,
            },
            None => None,
        },
        ExprKind::Index { name, .. } => match read(scope, name.name) {
            Reading::Array { part, .. } => Some(part),
            _ => None,
        },
        _ => None,
    }
}

// The range of the mark at a place.
fn range_at(scope: &Scope, place: u32) -> Option<Range>
    ensures { option_map plain_range result ≡ range_of_mark scope.now.types place }
{
    match scope.table().mark(place) {
        Some(mark) => Some(Range {
            kind: mark.kind,
            first: mark.first as i64,
            last: mark.last as i64,
        }),
        None => None,
    }
}

// All values of a kind.
fn range_of_kind(scope: &Scope, kind: u32) -> Option<Range>
    ensures { option_map plain_range result ≡ range_of_kind kind (kind_at scope.now.types kind) }
{
    match scope.table().kind(kind) {
        Some(found) => match found {
            Kind::Integer => Some(Range {
                kind,
                first: -2147483648,
                last: 2147483647,
            }),
            Kind::Truth => Some(Range {
                kind,
                first: 0,
                last: 1,
            }),
            Kind::Enumeration { literals } => Some(Range {
                kind,
                first: 0,
                last: literals.as_slice().len() as i64 - 1,
            }),
            Kind::Array { .. } => None,
        },
        None => None,
    }
}

/// The values of a selector of a kind: those of the subtype of the object that it names, else those of its type.
pub fn selected_values(scope: &Scope, selector: &Expr, kind: Option<u32>) -> Option<Range>
    requires { kind ≡ kind_of scope.now (plain_expr selector.now) }
    ensures { option_map plain_range result ≡ selected_range scope.now (plain_expr selector.now) }
{
    match mark_of_object(scope, selector) {
        Some(mark) => range_at(scope, mark),
        None => match kind {
            Some(kind) => range_of_kind(scope, kind),
            None => None,
        },
    }
}

// A bound of a choice: of the selector's kind, static and in its range.
fn walk_value(scope: &Scope, kind: Option<u32>, values: Option<Range>, e: &Expr) -> Walked
    ensures { IsWalked (bound_sites scope.now kind (option_map plain_range values) (plain_expr e.now)) scope.now (plain_expr e.now) result }
{
    let walked = walk_static(scope, kind, e);
    let outside = refuse_outside(scope, e, walked.known(), values);
    Walked {
        kind: walked.kind,
        value: walked.value,
        refusal: first(walked.refusal, outside),
    }
}

// A choice: each bound as above, and not empty.
fn walk_choice(
    scope: &Scope,
    kind: Option<u32>,
    values: Option<Range>,
    choice: &CaseChoice,
) -> Option<Refusal>
    ensures { result ≡ refused_first (choice_sites scope.now kind (option_map plain_range values) (plain_choice choice.now)) }
{
    let low = walk_value(scope, kind, values, &choice.first);
    match &choice.last {
        Some(last) => {
            let high = walk_value(scope, kind, values, last);
            let empty = refuse_empty(scope, &choice.first, low.known(), last, high.known());
            first(low.refusal, first(high.refusal, empty))
        }
        None => low.refusal,
    }
}

/// The choices of a `when`.
#[tactic(auto, using(ada_static_rules::proofs::Listing::lists))]
pub fn walk_choices(
    scope: &Scope,
    kind: Option<u32>,
    values: Option<Range>,
    choices: &[CaseChoice],
) -> Option<Refusal>
    ensures { result ≡ refused_first (flat_map (choice_sites scope.now kind (option_map plain_range values)) (map plain_choice choices.now)) }
{
    let mut refusal = None;
    for choice in choices {
        refusal = first(refusal, walk_choice(scope, kind, values, choice));
    }
    refusal
}

// The value of an expression of a kind, where it is static and no operation in it raises.
fn value_of(scope: &Scope, kind: u32, e: &Expr) -> Option<i64>
    ensures { result ≡ static_in scope.now kind (plain_expr e.now) }
{
    walk(scope, e).known().value_in(kind)
}

// The range of two values of a kind.
fn between(kind: u32, first: Option<i64>, last: Option<i64>) -> Option<Range>
    ensures { option_map plain_range result ≡ range_between kind first last }
{
    match first {
        Some(first) => match last {
            Some(last) => Some(Range { kind, first, last }),
            None => None,
        },
        None => None,
    }
}

// The values of a choice of a kind, where they are static.
fn range_of(scope: &Scope, kind: u32, choice: &CaseChoice) -> Option<Range>
    ensures { option_map plain_range result ≡ choice_range scope.now kind (plain_choice choice.now) }
{
    let first = value_of(scope, kind, &choice.first);
    match &choice.last {
        Some(last) => between(kind, first, value_of(scope, kind, last)),
        None => between(kind, first, first),
    }
}

// The place of a choice.
fn span_of(choice: &CaseChoice) -> Span
    ensures { result ≡ choice_span (plain_choice choice.now) }
{
    let first = place(&choice.first);
    match &choice.last {
        Some(last) => Span {
            start: first.start,
            end: place(last).end,
        },
        None => Span {
            start: first.start,
            end: first.end,
        },
    }
}

// Whether a range has a value in common with earlier ones.
fn meets(covered: &Covered, range: Option<Range>) -> bool
    ensures { (seen : List PlainRange) → Shows covered.now seen → result ≡ overlaps_one seen (option_map plain_range range) }
{
    match range {
        Some(range) => {
            range.first <= range.last && covered.meeting(range.first, range.last).is_some()
        }
        None => false,
    }
}

// The values of a range more.
fn cover(covered: Covered, range: Option<Range>) -> Result<Covered, AllocError>
    ensures { (seen : List PlainRange) → Shows covered seen → IfOk result (λ c. Shows c (with_range (option_map plain_range range) seen)) }
{
    match range {
        Some(range) => {
            if range.last < range.first {
                return Ok(covered);
            }
            let mut covered = covered;
            covered.add(range.first, range.last)?;
            Ok(covered)
        }
        None => Ok(covered),
    }
}

// Whether a choice is static, not empty and within the values of the selector.
fn is_good(values: Option<Range>, range: Option<Range>) -> bool
    ensures { result ≡ is_good (option_map plain_range values) (option_map plain_range range) }
{
    match values {
        Some(values) => match range {
            Some(range) => {
                range.first <= range.last
                    && values.first <= range.first
                    && range.last <= values.last
            }
            None => false,
        },
        None => false,
    }
}

fn are_both(one: bool, other: bool) -> bool
    ensures { result ≡ (one && other) }
{
    one && other
}

// A choice more.
fn choose(
    chosen: Chosen,
    scope: &Scope,
    kind: u32,
    values: Option<Range>,
    choice: &CaseChoice,
) -> Result<Chosen, AllocError>
    ensures { (done : List PChoice) → AreChosen scope.now kind (option_map plain_range values) done chosen → IfOk result (AreChosen scope.now kind (option_map plain_range values) (done ++ plain_choice choice.now ∷ [])) }
{
    let Chosen {
        covered,
        refusal,
        good,
    } = chosen;
    let range = range_of(scope, kind, choice);
    let own = refuse_if(meets(&covered, range), Rule::ChoiceBad, span_of(choice));
    let covered = cover(covered, range)?;
    Ok(Chosen {
        covered,
        refusal: first(refusal, own),
        good: are_both(good, is_good(values, range)),
    })
}

// The choices of a `when` more.
fn choose_all(
    chosen: Chosen,
    scope: &Scope,
    kind: u32,
    values: Option<Range>,
    choices: &[CaseChoice],
) -> Result<Chosen, AllocError>
    ensures { (done : List PChoice) → AreChosen scope.now kind (option_map plain_range values) done chosen → IfOk result (AreChosen scope.now kind (option_map plain_range values) (done ++ map plain_choice choices.now)) }
{
    let mut all = chosen;
    for choice in choices {
        all = choose(all, scope, kind, values, choice)?;
    }
    Ok(all)
}

// The choices of all arms.
fn choose_arms(
    alloc: Global,
    scope: &Scope,
    kind: u32,
    values: Option<Range>,
    arms: &[CaseArm],
) -> Result<Chosen, AllocError>
    ensures { IfOk result (AreChosen scope.now kind (option_map plain_range values) (arm_choices (case_arms_of (map plain_case_arm arms.now)))) }
{
    let mut all = Chosen {
        covered: Covered::new(alloc),
        refusal: None,
        good: true,
    };
    for arm in arms {
        all = choose_all(all, scope, kind, values, &arm.choices)?;
    }
    Ok(all)
}

// Whether a value of a range is in none of the choices.
fn leaves_out(covered: &Covered, values: Range) -> bool
    ensures { (is_covered : ℤ → Bool) → ((z : ℤ) → Covers covered.now z ↔ (is_covered z ≡ true)) → result ≡ list_any (λ z. not (is_covered z)) (values_in (plain_range values)) }
{
    let mut next = values.first;
    'leaves: while next <= values.last {
        match covered.meeting(next, next) {
            Some(range) => {
                if values.last <= range.1 {
                    return false;
                }
                next = range.1 + 1;
            }
            None => return true,
        }
    }
    false
}

// Whether a value of the selector is left out.
fn is_left_out(kind: u32, values: Option<Range>, chosen: &Chosen) -> bool
    ensures { (scope : PlainScope) (choices : List PChoice) → AreChosen scope kind (option_map plain_range values) choices chosen.now → result ≡ left_out scope kind (option_map plain_range values) choices }
{
    if kind == INTEGER {
        return true;
    }
    match values {
        Some(values) => {
            if !chosen.good || chosen.refusal.is_some() {
                return false;
            }
            leaves_out(&chosen.covered, values)
        }
        None => false,
    }
}

// A case without others that leaves out a value.
fn refuse_left_out(
    kind: u32,
    values: Option<Range>,
    chosen: &Chosen,
    others: bool,
    span: Span,
) -> Option<Refusal>
    ensures { (scope : PlainScope) (choices : List PChoice) → AreChosen scope kind (option_map plain_range values) choices chosen.now → result ≡ found 9 (if not others && left_out scope kind (option_map plain_range values) choices then span ∷ [] else []) }
{
    if others {
        return None;
    }
    refuse_if(is_left_out(kind, values, chosen), Rule::ChoiceBad, span)
}

/// Choices of a case that overlap, or leave out a value.
pub fn refuse_choices(
    alloc: Global,
    scope: &Scope,
    selector: &Expr,
    arms: &[CaseArm],
    others: bool,
    span: Span,
) -> Result<Option<Refusal>, AllocError>
    ensures { IfOk result (λ r. r ≡ refused_first_at scope.now (chooses (plain_expr selector.now) (arm_choices (case_arms_of (map plain_case_arm arms.now))) others span)) }
{
    let walked = walk(scope, selector);
    match walked.kind {
        Some(kind) => {
            let values = selected_values(scope, selector, walked.kind);
            let chosen = choose_arms(alloc, scope, kind, values, arms)?;
            let left = refuse_left_out(kind, values, &chosen, others, span);
            Ok(first(chosen.refusal, left))
        }
        None => Ok(None),
    }
}
