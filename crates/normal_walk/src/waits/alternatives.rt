// Alternatives of selective waits: what they put in front of their wait, and what is left.

ghost use Rattle.std.specs.Prelude.{◌≡◌, ◌+◌, ℕ, OnOk, option_copied, option_map};
ghost use Rattle.ada_tree.specs.PlainExpr.{plain_expr};
ghost use Rattle.ada_tree.specs.PlainStmt.{arm, arm_then, no_arm, absent, plain_alt, plain_alt_kind, seen, SIf};
ghost use Rattle.task_model.specs.Frames.{in_front};
ghost use Rattle.normal_model.specs.Making.{assignment, one, variable};
ghost use Rattle.normal_model.specs.Waits.{alternative_before, alternative_left, kind_left};
ghost use Rattle.normal_walk.specs.waits.inner.Moved.{guarded_front, kind_moving, moved_before};

use crate::waits::accepts::{index_moving, leave_index};
use ada_stmt_copy::expressions::ExprCopy;
use ada_tree::{Alt, AltKind, Expr, Memory, Span, Stmt};
use normal_lookups::pieces::{
    Meanings, assigned_stmt, following, push_copy, push_made, variable_expr,
};
use std::alloc::Global;
use tree_rewriting::making::{if_one, one_stmt, put_expr};

// The index of an alternative that is not static.
fn kind_moving<'a, M: Meanings>(m: &M, kind: &'a AltKind) -> Option<&'a Expr>
    requires { M.fits m.now }
    ensures { option_map plain_expr (option_copied result) ≡ kind_moving (M.setting m.now).types (plain_alt_kind kind.now) }
{
    match kind {
        AltKind::Accept { accept, .. } => index_moving(m, accept),
        AltKind::Delay { .. } | AltKind::Terminate => None,
    }
}

// The assignment of an index under the variable of a guard.
fn push_under<M: Meanings>(
    alloc: Global,
    m: &M,
    number: u32,
    index: &Expr,
    span: Span,
    out: &mut Vec<Stmt>,
) -> Result<(), Memory>
    requires { M.fits m.now }
    ensures { OnOk result (seen out.new.items ≡ in_front (seen out.old.items) (one (SIf (arm_then (arm (variable (M.setting m.now) span number) (one (assignment (M.setting m.now) span (number + 1) (plain_expr index.now)))) no_arm) absent span))) }
{
    let next = following(number)?;
    let assigned = assigned_stmt(m, next, index.copy(alloc), span);
    let test = variable_expr(m, number, span);
    push_made(
        out,
        if_one(alloc, test, one_stmt(alloc, assigned), Ok(None), span),
    )
}

// What an alternative with a guard puts in front of its wait.
fn push_guarded<M: Meanings>(
    alloc: Global,
    m: &M,
    number: u32,
    guard: &Expr,
    kind: &AltKind,
    span: Span,
    out: &mut Vec<Stmt>,
) -> Result<(), Memory>
    requires { M.fits m.now }
    ensures { OnOk result (seen out.new.items ≡ in_front (seen out.old.items) (guarded_front (M.setting m.now) span number (plain_expr guard.now) (kind_moving (M.setting m.now).types (plain_alt_kind kind.now)))) }
{
    push_copy(alloc, m, number, guard, span, out)?;
    match kind_moving(m, kind) {
        Some(index) => push_under(alloc, m, number, index, span, out),
        None => Ok(()),
    }
}

// What an alternative without guard puts in front of its wait.
fn push_open<M: Meanings>(
    alloc: Global,
    m: &M,
    number: u32,
    kind: &AltKind,
    span: Span,
    out: &mut Vec<Stmt>,
) -> Result<(), Memory>
    requires { M.fits m.now }
    ensures { OnOk result (seen out.new.items ≡ in_front (seen out.old.items) (moved_before (M.setting m.now) span number (kind_moving (M.setting m.now).types (plain_alt_kind kind.now)))) }
{
    match kind_moving(m, kind) {
        Some(index) => push_copy(alloc, m, number, index, span, out),
        None => Ok(()),
    }
}

/// What an alternative puts in front of its wait goes behind other statements, where the variables of a number on are its own. It says so of every task that may run the unit.
pub fn push_alternative_before<M: Meanings>(
    alloc: Global,
    m: &M,
    number: u32,
    alt: &Alt,
    out: &mut Vec<Stmt>,
) -> Result<(), Memory>
    requires { M.fits m.now }
    ensures { OnOk result ((t : ℕ) → seen out.new.items ≡ in_front (seen out.old.items) (alternative_before (record { setting = M.setting m.now; task = t }) (plain_alt alt.now) number)) }
{
    match &alt.guard {
        Some(guard) => push_guarded(alloc, m, number, guard, &alt.kind, alt.span, out),
        None => push_open(alloc, m, number, &alt.kind, alt.span, out),
    }
}

// The index of an alternative that is not static becomes a variable.
fn leave_kind<M: Meanings>(m: &M, number: u32, kind: &mut AltKind, span: Span) -> Result<(), Memory>
    requires { M.fits m.now }
    ensures { OnOk result (plain_alt_kind kind.new ≡ kind_left (record { setting = M.setting m.now; task = 0 }) span (plain_alt_kind kind.old) number) }
{
    match kind {
        AltKind::Accept { accept, .. } => leave_index(m, number, accept, span),
        AltKind::Delay { .. } | AltKind::Terminate => Ok(()),
    }
}

/// An alternative becomes that of the new wait, where the variables of a number on are its own: its guard and an index that is not static become variables.
pub fn leave_alternative<M: Meanings>(m: &M, number: u32, alt: &mut Alt) -> Result<(), Memory>
    requires { M.fits m.now }
    ensures { OnOk result ((t : ℕ) → plain_alt alt.new ≡ alternative_left (record { setting = M.setting m.now; task = t }) (plain_alt alt.old) number) }
{
    let span = alt.span;
    if alt.guard.is_some() {
        put_expr(&mut alt.guard, variable_expr(m, number, span))?;
        leave_kind(m, following(number)?, &mut alt.kind, span)
    } else {
        leave_kind(m, number, &mut alt.kind, span)
    }
}
