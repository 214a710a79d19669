// The assignments of actuals to their variables in front of a call, and those back behind it.

ghost use Rattle.std.specs.Prelude.{◌≡◌, OnOk, map};
ghost use Rattle.ada_tree.specs.PlainExpr.{plain_expr};
ghost use Rattle.ada_tree.specs.PlainStmt.{plain_call, seen};
ghost use Rattle.task_model.specs.Frames.{in_front};
ghost use Rattle.task_model.specs.Calls.{variable_of};
ghost use Rattle.normal_model.specs.Calls.{actual_before, actual_behind, call_behind, copied_to};
ghost use Rattle.normal_calls.specs.inner.Modes.{modes_before, modes_behind};

use crate::called::{actuals_called, modes_called};
use crate::numbers::{actual_number, number_at};
use ada_tree::{Call, Expr, Memory, ParMode, Span, Stmt, Word};
use normal_lookups::pieces::{Meanings, push_copy, push_made, variable_expr};
use std::alloc::Global;
use task_links::variable_of;
use tree_rewriting::making::assignment;

// The assignment of an actual to its variable.
fn push_actual<M: Meanings>(
    alloc: Global,
    m: &M,
    number: u32,
    mode: ParMode,
    actual: &Expr,
    span: Span,
    out: &mut Vec<Stmt>,
) -> Result<(), Memory>
    requires { M.fits m.now }
    ensures { OnOk result (seen out.new.items ≡ in_front (seen out.old.items) (actual_before (M.setting m.now) span mode (plain_expr actual.now) number)) }
{
    match mode {
        ParMode::Take => push_copy(alloc, m, number, actual, span, out),
        ParMode::Give => Ok(()),
        ParMode::Both => push_copy(alloc, m, number, actual, span, out),
    }
}

/// The assignments of actuals to their variables, which are numbered from a number on.
pub(crate) fn push_actuals<M: Meanings>(
    alloc: Global,
    m: &M,
    number: u32,
    modes: &[ParMode],
    actuals: &[Expr],
    span: Span,
    out: &mut Vec<Stmt>,
) -> Result<(), Memory>
    requires { M.fits m.now }
    ensures { OnOk result (seen out.new.items ≡ in_front (seen out.old.items) (modes_before (M.setting m.now) span modes.now (map plain_expr actuals.now) number)) }
{
    for (place, mode) in modes.iter().enumerate() {
        match actuals.get(place) {
            Some(actual) => {
                let own = number_at(number, place)?;
                push_actual(alloc, m, own, *mode, actual, span, out)?;
            }
            None => return Ok(()),
        }
    }
    Ok(())
}

// The assignment of a variable to an actual that is one.
fn push_copied<M: Meanings>(
    m: &M,
    number: u32,
    actual: &Expr,
    span: Span,
    out: &mut Vec<Stmt>,
) -> Result<(), Memory>
    requires { M.fits m.now }
    ensures { OnOk result (seen out.new.items ≡ in_front (seen out.old.items) (copied_to (M.setting m.now) span (plain_expr actual.now) (variable_of (plain_expr actual.now)) number)) }
{
    match variable_of(actual) {
        Some(name) => {
            let word = Word {
                name,
                span: actual.span,
            };
            push_made(out, assignment(word, variable_expr(m, number, span), span))
        }
        None => Ok(()),
    }
}

// The assignment of the variable of an actual back to it.
fn push_back<M: Meanings>(
    m: &M,
    number: u32,
    mode: ParMode,
    actual: &Expr,
    span: Span,
    out: &mut Vec<Stmt>,
) -> Result<(), Memory>
    requires { M.fits m.now }
    ensures { OnOk result (seen out.new.items ≡ in_front (seen out.old.items) (actual_behind (M.setting m.now) span mode (plain_expr actual.now) number)) }
{
    match mode {
        ParMode::Take => Ok(()),
        ParMode::Give => push_copied(m, number, actual, span, out),
        ParMode::Both => push_copied(m, number, actual, span, out),
    }
}

// The assignments of variables, which are numbered from a number on, to actuals.
fn push_backs<M: Meanings>(
    m: &M,
    number: u32,
    modes: &[ParMode],
    actuals: &[Expr],
    span: Span,
    out: &mut Vec<Stmt>,
) -> Result<(), Memory>
    requires { M.fits m.now }
    ensures { OnOk result (seen out.new.items ≡ in_front (seen out.old.items) (modes_behind (M.setting m.now) span modes.now (map plain_expr actuals.now) number)) }
{
    for (place, mode) in modes.iter().enumerate() {
        match actuals.get(place) {
            Some(actual) => {
                let own = number_at(number, place)?;
                push_back(m, own, *mode, actual, span, out)?;
            }
            None => return Ok(()),
        }
    }
    Ok(())
}

/// The assignments to the actuals behind a call.
pub(crate) fn push_behind<M: Meanings>(
    m: &M,
    number: u32,
    call: &Call,
    span: Span,
    out: &mut Vec<Stmt>,
) -> Result<(), Memory>
    requires { M.fits m.now }
    ensures { OnOk result (seen out.new.items ≡ in_front (seen out.old.items) (call_behind (M.setting m.now) span (plain_call call.now) number)) }
{
    let first = actual_number(m, number, call, span)?;
    push_backs(
        m,
        first,
        modes_called(m, call),
        actuals_called(m, call),
        span,
        out,
    )
}
