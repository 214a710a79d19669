// How deep expressions stand, and what their names stand for.
#![tactic(auto, using(ada_check_rules::proofs::rules::Meeting::meeting))]

ghost use Rattle.std.specs.Prelude.{◌≡◌, ◌+◌, IfOk, map, option_map};
ghost use Rattle.ada_tree.specs.PlainExpr.{plain_expr, plain_bounds, plain_subind, plain_drange};
ghost use Rattle.syn_event.specs.declared.limits.What.TheVariants.{Nesting};
ghost use Rattle.syn_event.specs.CheckScope.{CheckScope, uses, counts};
ghost use Rattle.syn_event.specs.CheckSites.{if_there, expr_sites, exprs_sites, bounds_sites, subind_sites, drange_sites};
ghost use Rattle.ada_check_places.specs.parts.inner.Asking.{is_shared};
ghost use Rattle.ada_check_rules.specs.rules.RefusedFirst.{Standard as By, refused_first_at, refused_first};
ghost use Rattle.ada_check_places.specs.parts.inner.WalkedExpr.{own_expr_met, operands_met};

use ada_check_rules::rules::{Refusal, Rule, Standard, first, refuse_if};
use ada_check_rules::scopes::CheckScopes;
use ada_tree::{Bounds, Drange, Expr, ExprKind, NameId, Span, Subind};
use std::alloc::AllocError;
use syn_event::{Meant, What};

/// One level deeper. There is no room for 2^32 levels.
pub fn deeper(k: u32) -> Result<u32, AllocError>
    ensures { IfOk result (λ n. n ≡ k + 1) }
{
    match k.checked_add(1) {
        Some(n) => Ok(n),
        None => Err(AllocError),
    }
}

/// A part that stands so deep.
pub fn refuse_deep(by: &Standard, k: u32, span: Span) -> Option<Refusal>
    ensures { (around : CheckScope) → result ≡ refused_first_at by.now around (counts Nesting 0 k span) }
{
    by.refuse_count(What::Nesting, 0, k as u64, span)
}

// Whether a name means a variable or an array constant of main.
fn is_shared(meant: Option<Meant>) -> bool
    ensures { result ≡ is_shared meant }
{
    match meant {
        Some(Meant::Shared) => true,
        _ => false,
    }
}

/// A name that stands for a value or a variable.
#[tactic(auto, using(crate::proofs::parts::Asking::uses_at))]
pub(crate) fn refuse_use(around: &CheckScopes, id: NameId, span: Span) -> Option<Refusal>
    ensures { (by : By) → result ≡ refused_first_at by around.now (uses id span) }
{
    let is_wrong = around.own_name().is_some() && is_shared(around.meaning(id));
    refuse_if(is_wrong, Rule::SharedVariable, span)
}

// An expression without its parts: how deep it stands, and what its name stands for.
fn refuse_own(around: &CheckScopes, by: &Standard, k: u32, e: &Expr) -> Option<Refusal>
    ensures { result ≡ own_expr_met by.now around.now k (plain_expr e.now) }
{
    let deep = refuse_deep(by, k, e.span);
    match &e.kind {
        ExprKind::Name(id) => first(deep, refuse_use(around, *id, e.span)),
        ExprKind::Index { name, .. } => first(deep, refuse_use(around, name.name, name.span)),
        _ => deep,
    }
}

// Walks the parts of an expression, which stand so deep.
#[cycle(expressions)]
fn walk_operands(
    around: &CheckScopes,
    by: &Standard,
    k: u32,
    e: &Expr,
) -> Result<Option<Refusal>, AllocError>
    ensures { IfOk result (λ r. r ≡ operands_met by.now around.now k (plain_expr e.now)) }
{
    match &e.kind {
        ExprKind::Index { arg, .. } => walk_expr(around, by, k, arg),
        ExprKind::Attribute { arg, .. } => match arg {
            Some(part) => walk_expr(around, by, k, part),
            None => Ok(None),
        },
        ExprKind::Paren(part) => walk_expr(around, by, k, part),
        ExprKind::Unary { part, .. } => walk_expr(around, by, k, part),
        ExprKind::Binary { left, right, .. } => {
            let left = walk_expr(around, by, k, left)?;
            let right = walk_expr(around, by, k, right)?;
            Ok(first(left, right))
        }
        _ => Ok(None),
    }
}

/// Walks an expression that stands so deep.
#[cycle(expressions)]
pub fn walk_expr(
    around: &CheckScopes,
    by: &Standard,
    k: u32,
    e: &Expr,
) -> Result<Option<Refusal>, AllocError>
    ensures { IfOk result (λ r. r ≡ refused_first by.now (expr_sites around.now k (plain_expr e.now))) }
{
    let inner = walk_operands(around, by, deeper(k)?, e)?;
    Ok(first(refuse_own(around, by, k, e), inner))
}

/// Walks an expression that may be left out.
pub fn walk_maybe(
    around: &CheckScopes,
    by: &Standard,
    k: u32,
    e: &Option<Expr>,
) -> Result<Option<Refusal>, AllocError>
    ensures { IfOk result (λ r. r ≡ refused_first by.now (if_there (expr_sites around.now k) (option_map plain_expr e.now))) }
{
    match e {
        Some(e) => walk_expr(around, by, k, e),
        None => Ok(None),
    }
}

/// Walks expressions that stand so deep.
pub fn walk_exprs(
    around: &CheckScopes,
    by: &Standard,
    k: u32,
    list: &[Expr],
) -> Result<Option<Refusal>, AllocError>
    ensures { IfOk result (λ r. r ≡ refused_first by.now (exprs_sites around.now k (map plain_expr list.now))) }
{
    let mut refusal = None;
    for e in list {
        let found = walk_expr(around, by, k, e)?;
        refusal = first(refusal, found);
    }
    Ok(refusal)
}

/// Walks two bounds.
pub(crate) fn walk_bounds(
    around: &CheckScopes,
    by: &Standard,
    k: u32,
    bounds: &Bounds,
) -> Result<Option<Refusal>, AllocError>
    ensures { IfOk result (λ r. r ≡ refused_first by.now (bounds_sites around.now k (plain_bounds bounds.now))) }
{
    let low = walk_expr(around, by, k, &bounds.first)?;
    let high = walk_expr(around, by, k, &bounds.last)?;
    Ok(first(low, high))
}

/// Walks the bounds behind a mark, where there are some.
pub fn walk_subind(
    around: &CheckScopes,
    by: &Standard,
    k: u32,
    x: &Subind,
) -> Result<Option<Refusal>, AllocError>
    ensures { IfOk result (λ r. r ≡ refused_first by.now (subind_sites around.now k (plain_subind x.now))) }
{
    match &x.bounds {
        Some(bounds) => walk_bounds(around, by, k, bounds),
        None => Ok(None),
    }
}

/// Walks a discrete range.
pub fn walk_drange(
    around: &CheckScopes,
    by: &Standard,
    k: u32,
    range: &Drange,
) -> Result<Option<Refusal>, AllocError>
    ensures { IfOk result (λ r. r ≡ refused_first by.now (drange_sites around.now k (plain_drange range.now))) }
{
    match range {
        Drange::Given(bounds) => walk_bounds(around, by, k, bounds),
        Drange::Marked(x) => walk_subind(around, by, k, x),
    }
}
