// The lists of expressions behind the entries of calls.

ghost use Rattle.std.specs.Prelude.{◌≡◌, Some, map, flat_map, option_map, slice_get};
ghost use Rattle.ada_tree.specs.PlainExpr.{plain_expr, EName};
ghost use Rattle.ada_tree.specs.PlainStmt.{plain_args};
ghost use Rattle.ada_static_rules.specs.Demand.{is_actual};
ghost use Rattle.ada_static_rules.specs.RuleNotVariable.{written_actual};
ghost use Rattle.ada_static_rules.specs.RuleReadOut.{read_out};
ghost use Rattle.ada_static_rules.specs.Sites.{expr_sites, expr_of, if_there, written_actual_sites, actual_sites, actuals_sites, free_args_sites, family_args_sites, single_args_sites, args_sites};
ghost use Rattle.ada_static_rules.specs.Sooner.{found};
ghost use Rattle.ada_static_rules.specs.RefusedFirst.{refused_first_at, refused_first};
ghost use Rattle.ada_scopes.specs.Entries.{plain_range, plain_part, plain_entry};
ghost use Rattle.ada_entry_rules.specs.inner.Actuals.{name_of, beside};

use crate::targets::refuse_whole_constant;
use ada_expr_rules::nodes::{refuse_array, refuse_out, refuse_unseen};
use ada_expr_rules::walking::{place, refuse_kind, walk, walk_of};
use ada_scopes::denotations::{EntryPart, Family, FormalPart, Range};
use ada_scopes::readings::read;
use ada_scopes::scope::Scope;
use ada_static_rules::refusals::{Refusal, Rule, first, refuse};
use ada_tree::{Args, Expr, ExprKind, NameId, ParMode, Span};

/// Walks expressions.
pub(crate) fn walk_all(scope: &Scope, list: &[Expr]) -> Option<Refusal>
    ensures { result ≡ refused_first (flat_map (expr_sites scope.now) (map plain_expr list.now)) }
{
    let mut refusal = None;
    for e in list {
        refusal = first(refusal, walk(scope, e).refusal);
    }
    refusal
}

// Walks expressions that must be of a kind.
fn walk_all_of(scope: &Scope, kind: Option<u32>, list: &[Expr]) -> Option<Refusal>
    ensures { result ≡ refused_first (flat_map (expr_of scope.now kind) (map plain_expr list.now)) }
{
    let mut refusal = None;
    for e in list {
        refusal = first(refusal, walk_of(scope, kind, e).refusal);
    }
    refusal
}

// The name that an expression is alone.
fn name_of(e: &Expr) -> Option<NameId>
    ensures { result ≡ name_of (plain_expr e.now) }
{
    match &e.kind {
        ExprKind::Name(id) => Some(*id),
        _ => None,
    }
}

// A formal of mode out that is passed on as in out.
fn refuse_read(scope: &Scope, mode: ParMode, id: NameId, span: Span) -> Option<Refusal>
    ensures { result ≡ found 7 (read_out scope.now (is_actual mode (EName id span))) }
{
    match mode {
        ParMode::Both => refuse_out(scope, id, span),
        ParMode::Take | ParMode::Give => None,
    }
}

// A name that is an actual of mode out or in out.
#[tactic(auto, using(ada_static_rules::proofs::SoonerLaws::sooner_laws))]
fn refuse_name(scope: &Scope, mode: ParMode, id: NameId, span: Span) -> Option<Refusal>
    ensures { result ≡ refused_first_at scope.now (is_actual mode (EName id span)) }
{
    let reading = read(scope, id);
    let unknown = refuse_unseen(scope, id, span);
    let constant = refuse_whole_constant(scope, reading, id, span);
    let out = refuse_read(scope, mode, id, span);
    let array = refuse_array(reading, span);
    first(unknown, first(constant, first(out, array)))
}

// An actual of mode out or in out that is no name.
fn refuse_no_name(scope: &Scope, e: &Expr) -> Option<Refusal>
    requires { name_of (plain_expr e.now) ≡ None }
    ensures { result ≡ found 6 (written_actual scope.now (plain_expr e.now)) }
{
    match &e.kind {
        ExprKind::Index { name, .. } => refuse(Rule::NotVariable, name.span),
        _ => refuse(Rule::NotVariable, e.span),
    }
}

// Refuses an actual of mode out or in out, by the first refusal of it as an expression. Of a name alone that says nothing, since it is not read.
fn refuse_written(
    scope: &Scope,
    mode: ParMode,
    e: &Expr,
    refusal: Option<Refusal>,
) -> Option<Refusal>
    requires { refusal ≡ refused_first (expr_sites scope.now (plain_expr e.now)) }
    ensures { result ≡ refused_first (written_actual_sites scope.now mode (plain_expr e.now)) }
{
    match name_of(e) {
        Some(id) => refuse_name(scope, mode, id, place(e)),
        None => first(refuse_no_name(scope, e), refusal),
    }
}

// Refuses an actual, by the first refusal of it as an expression.
fn refuse_actual(
    scope: &Scope,
    mode: ParMode,
    e: &Expr,
    refusal: Option<Refusal>,
) -> Option<Refusal>
    requires { refusal ≡ refused_first (expr_sites scope.now (plain_expr e.now)) }
    ensures { result ≡ refused_first (actual_sites scope.now mode (plain_expr e.now)) }
{
    match mode {
        ParMode::Take => refusal,
        ParMode::Give => refuse_written(scope, ParMode::Give, e, refusal),
        ParMode::Both => refuse_written(scope, ParMode::Both, e, refusal),
    }
}

// Walks an actual beside its formal. One without a formal is an expression.
fn walk_beside(scope: &Scope, formal: Option<FormalPart>, e: &Expr) -> Option<Refusal>
    ensures { result ≡ refused_first (beside scope.now (option_map plain_part formal) (plain_expr e.now)) }
{
    let walked = walk(scope, e);
    match formal {
        Some(formal) => {
            let other = refuse_kind(scope, formal.kind, e, walked.kind);
            let own = refuse_actual(scope, formal.mode, e, walked.refusal);
            first(own, other)
        }
        None => walked.refusal,
    }
}

// The formal at a place.
fn formal_at(formals: &[FormalPart], place: usize) -> Option<FormalPart>
    ensures { result ≡ slice_get formals.now place }
{
    formals.get(place).copied()
}

// Walks actuals beside their formals.
fn walk_actuals(scope: &Scope, formals: &[FormalPart], actuals: &[Expr]) -> Option<Refusal>
    ensures { result ≡ refused_first (actuals_sites scope.now (map plain_part formals.now) (map plain_expr actuals.now)) }
{
    let mut refusal = None;
    for (place, e) in actuals.iter().enumerate() {
        refusal = first(refusal, walk_beside(scope, formal_at(formals, place), e));
    }
    refusal
}

// Walks a second list, behind an entry that is no family or is not known.
fn walk_second(scope: &Scope, second: &Option<Vec<Expr>>) -> Option<Refusal>
    ensures { result ≡ refused_first (if_there (flat_map (expr_sites scope.now)) (option_map (λ v. map plain_expr v.items) second.now)) }
{
    match second {
        Some(list) => walk_all(scope, list),
        None => None,
    }
}

// Walks a second list, behind a family.
fn walk_second_actuals(
    scope: &Scope,
    formals: &[FormalPart],
    second: &Option<Vec<Expr>>,
) -> Option<Refusal>
    ensures { result ≡ refused_first (if_there (actuals_sites scope.now (map plain_part formals.now)) (option_map (λ v. map plain_expr v.items) second.now)) }
{
    match second {
        Some(list) => walk_actuals(scope, formals, list),
        None => None,
    }
}

// Walks the lists behind an entry that is not known.
fn walk_free(scope: &Scope, args: &Args) -> Option<Refusal>
    ensures { result ≡ refused_first (free_args_sites scope.now (plain_args args.now)) }
{
    let one = walk_all(scope, &args.first);
    let other = walk_second(scope, &args.second);
    first(one, other)
}

// Walks the lists behind a plain entry.
fn walk_single(scope: &Scope, formals: &[FormalPart], args: &Args) -> Option<Refusal>
    ensures { result ≡ refused_first (single_args_sites scope.now (map plain_part formals.now) (plain_args args.now)) }
{
    let one = walk_actuals(scope, formals, &args.first);
    let other = walk_second(scope, &args.second);
    first(one, other)
}

// Walks the lists behind a family.
fn walk_family(scope: &Scope, range: Range, formals: &[FormalPart], args: &Args) -> Option<Refusal>
    ensures { result ≡ refused_first (family_args_sites scope.now (plain_range range) (map plain_part formals.now) (plain_args args.now)) }
{
    let one = walk_all_of(scope, Some(range.kind), &args.first);
    let other = walk_second_actuals(scope, formals, &args.second);
    first(one, other)
}

/// Walks the lists behind an entry, where it is known.
pub(crate) fn walk_args(scope: &Scope, entry: Option<&EntryPart>, args: &Args) -> Option<Refusal>
    ensures { result ≡ refused_first (args_sites scope.now (option_map (λ e. plain_entry e.now) entry.entry) (plain_args args.now)) }
{
    match entry {
        Some(entry) => match entry.family {
            Family::Single => walk_single(scope, &entry.formals, args),
            Family::Over(range) => walk_family(scope, range, &entry.formals, args),
            Family::Unclear => walk_free(scope, args),
        },
        None => walk_free(scope, args),
    }
}
