// What statements and alternatives ask themselves, without the statements in them.
#![tactic(auto, using(ada_check_rules::proofs::rules::Meeting::meeting, ada_tree::proofs::Rows::rows))]

ghost use Rattle.std.specs.Prelude.{◌≡◌, ◌∷◌, [], IfOk, option_map};
ghost use Rattle.ada_tree.specs.PlainExpr.{plain_expr};
ghost use Rattle.ada_tree.specs.PlainStmt.{plain_accept, plain_alt, plain_alt_kind, plain_scheme, plain_stmt};
ghost use Rattle.syn_event.specs.CheckScope.{CheckScope, declares, exits};
ghost use Rattle.syn_event.specs.CheckSites.{site, if_there, expr_sites, scheme_sites, delay_sites};
ghost use Rattle.ada_check_rules.specs.rules.Sooner.{sooner};
ghost use Rattle.ada_check_rules.specs.rules.RefusedFirst.{refused_first_at, refused_first};
ghost use Rattle.ada_check_places.specs.statements.inner.Walked.{depth_met, simple_met, before_met, own_met, accept_own_met, kind_own_met, alt_own_met};

use crate::parts::{
    deeper, refuse_deep, refuse_exit, walk_aborted, walk_assign, walk_call, walk_expr, walk_head,
    walk_label, walk_maybe, walk_raise, walk_scheme_if, walk_select, walk_target, walk_text,
    walk_wait,
};
use ada_check_rules::rules::{Refusal, Standard, first};
use ada_check_rules::scopes::CheckScopes;
use ada_tree::{Accept, Alt, AltKind, Expr, Scheme, Span, Stmt, StmtKind, Word};
use std::alloc::AllocError;

// How deep a statement stands; that is asked at the head of an accept.
fn refuse_depth(by: &Standard, k: u32, stmt: &Stmt) -> Option<Refusal>
    ensures { (around : CheckScope) → result ≡ depth_met by.now around k (plain_stmt stmt.now) }
{
    match &stmt.kind {
        StmtKind::Accept(_) => None,
        _ => refuse_deep(by, k, stmt.span),
    }
}

// An exit with its condition.
fn walk_exit(
    around: &CheckScopes,
    by: &Standard,
    k: u32,
    name: Option<Word>,
    test: &Option<Expr>,
    span: Span,
) -> Result<Option<Refusal>, AllocError>
    ensures { IfOk result (λ r. r ≡ sooner (refused_first_at by.now around.now (exits name span)) (refused_first by.now (if_there (expr_sites around.now k) (option_map plain_expr test.now)))) }
{
    let place = refuse_exit(around, name, span);
    let test = walk_maybe(around, by, k, test)?;
    Ok(first(place, test))
}

// The parts, of that nesting, of a statement in which no statements stand.
fn walk_simple(
    around: &CheckScopes,
    by: &Standard,
    k: u32,
    stmt: &Stmt,
) -> Result<Option<Refusal>, AllocError>
    ensures { IfOk result (λ r. r ≡ simple_met by.now around.now k (plain_stmt stmt.now)) }
{
    match &stmt.kind {
        StmtKind::Assign { target, value } => walk_assign(around, by, k, target, value),
        StmtKind::Exit { name, test } => walk_exit(around, by, k, *name, test, stmt.span),
        StmtKind::Raise { name } => Ok(walk_raise(around, *name, stmt.span)),
        StmtKind::Abort { names } => walk_aborted(around, by, k, names),
        StmtKind::Call(call) => walk_call(around, by, k, call),
        StmtKind::Put { parts } => walk_text(around, by, k, parts),
        StmtKind::PutLine { parts } => walk_text(around, by, k, parts),
        StmtKind::Get { target } => walk_target(around, by, k, target),
        _ => Ok(None),
    }
}

// The name of a loop and how it goes on.
fn walk_loop_head(
    around: &CheckScopes,
    by: &Standard,
    k: u32,
    name: Option<Word>,
    scheme: &Option<Scheme>,
) -> Result<Option<Refusal>, AllocError>
    ensures { IfOk result (λ r. r ≡ sooner (refused_first by.now (if_there (λ x. site around.now (declares x) ∷ []) name)) (refused_first by.now (if_there (scheme_sites around.now k) (option_map plain_scheme scheme.now)))) }
{
    let label = walk_label(by, name);
    let head = walk_scheme_if(around, by, k, scheme)?;
    Ok(first(label, head))
}

// An accept without its statements.
fn walk_accept_head(
    around: &CheckScopes,
    by: &Standard,
    k: u32,
    accept: &Accept,
) -> Result<Option<Refusal>, AllocError>
    ensures { IfOk result (λ r. r ≡ accept_own_met by.now around.now k (plain_accept accept.now)) }
{
    walk_head(
        around,
        by,
        k,
        accept.entry,
        &accept.index,
        &accept.formals,
        accept.span,
    )
}

// What stands in a statement of that nesting before the statements in it.
fn walk_before(
    around: &CheckScopes,
    by: &Standard,
    k: u32,
    stmt: &Stmt,
) -> Result<Option<Refusal>, AllocError>
    ensures { IfOk result (λ r. r ≡ before_met by.now around.now k (plain_stmt stmt.now)) }
{
    match &stmt.kind {
        StmtKind::Accept(accept) => walk_accept_head(around, by, k, accept),
        StmtKind::Wait { alts, otherwise } => {
            walk_wait(around, by, alts, otherwise.is_some(), stmt.span)
        }
        StmtKind::Conditional { call, .. } => walk_select(around, by, k, call),
        StmtKind::Timed { call, .. } => walk_select(around, by, k, call),
        StmtKind::Case { selector, .. } => walk_expr(around, by, deeper(k)?, selector),
        StmtKind::Loop { name, scheme, .. } => {
            walk_loop_head(around, by, deeper(k)?, *name, scheme)
        }
        _ => Ok(None),
    }
}

/// What a statement of that nesting asks itself: all but the statements in it.
pub(crate) fn walk_own(
    around: &CheckScopes,
    by: &Standard,
    k: u32,
    stmt: &Stmt,
) -> Result<Option<Refusal>, AllocError>
    ensures { IfOk result (λ r. r ≡ own_met by.now around.now k (plain_stmt stmt.now)) }
{
    let depth = refuse_depth(by, k, stmt);
    let parts = walk_simple(around, by, deeper(k)?, stmt)?;
    let before = walk_before(around, by, k, stmt)?;
    Ok(first(depth, first(parts, before)))
}

// A delay of a wait, which stands where its alternative does unless it has a guard.
fn refuse_delay(by: &Standard, k: u32, guard: &Option<Expr>, span: Span) -> Option<Refusal>
    ensures { (around : CheckScope) → result ≡ refused_first by.now (delay_sites around k (option_map plain_expr guard.now) span) }
{
    match guard {
        Some(_) => None,
        None => refuse_deep(by, k, span),
    }
}

// What an alternative of that guard and place asks behind the guard.
fn walk_kind_own(
    around: &CheckScopes,
    by: &Standard,
    k: u32,
    guard: &Option<Expr>,
    span: Span,
    kind: &AltKind,
) -> Result<Option<Refusal>, AllocError>
    ensures { IfOk result (λ r. r ≡ kind_own_met by.now around.now k (option_map plain_expr guard.now) span (plain_alt_kind kind.now)) }
{
    match kind {
        AltKind::Accept { accept, .. } => walk_accept_head(around, by, k, accept),
        AltKind::Delay { .. } => Ok(refuse_delay(by, k, guard, span)),
        AltKind::Terminate => Ok(None),
    }
}

/// What an alternative of that nesting asks itself: all but the statements in it.
pub(crate) fn walk_alt_own(
    around: &CheckScopes,
    by: &Standard,
    k: u32,
    alt: &Alt,
) -> Result<Option<Refusal>, AllocError>
    ensures { IfOk result (λ r. r ≡ alt_own_met by.now around.now k (plain_alt alt.now)) }
{
    let deep = refuse_deep(by, k, alt.span);
    let inner = deeper(k)?;
    let guard = walk_maybe(around, by, inner, &alt.guard)?;
    let kind = walk_kind_own(around, by, inner, &alt.guard, alt.span, &alt.kind)?;
    Ok(first(deep, first(guard, kind)))
}
