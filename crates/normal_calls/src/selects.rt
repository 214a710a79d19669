// Conditional and timed calls.

ghost use Rattle.std.specs.Prelude.{◌≡◌, IfOk, OnOk};
ghost use Rattle.ada_tree.specs.declared.expressions.BinaryOp.TheVariants.{Equal};
ghost use Rattle.ada_tree.specs.PlainExpr.{EBinary, EInteger, plain_expr};
ghost use Rattle.ada_tree.specs.PlainStmt.{plain_call, plain_stmt, seen};
ghost use Rattle.normal_model.specs.Making.{variable};
ghost use Rattle.task_model.specs.Frames.{in_front};
ghost use Rattle.normal_model.specs.Calls.{call_behind, conditional_image, is_chosen, part_taken, select_if, select_image, timed_image};
ghost use Rattle.normal_calls.specs.inner.CallForms.{formed};

use crate::actuals::push_behind;
use crate::call_forms::{Form, known_call};
use crate::calls::push_before;
use crate::member_branches::call_by_member;
use crate::numbers::flag_number;
use ada_tree::{BinaryOp, Call, Expr, Memory, Span, Stmt};
use normal_lookups::pieces::{
    Meanings, append_row, fill_empty, moving_index, push_made, variable_expr,
};
use std::alloc::Global;
use tree_rewriting::making::{binary_of, if_one, integer_expr, some_stmts, take_stmts};

// The assignments to the actuals go in front of the statements behind a call.
fn put_behind<M: Meanings>(
    alloc: Global,
    m: &M,
    number: u32,
    call: &Call,
    span: Span,
    stmts: &mut Vec<Stmt>,
) -> Result<(), Memory>
    requires { M.fits m.now }
    ensures { OnOk result (seen stmts.new.items ≡ in_front (call_behind (M.setting m.now) span (plain_call call.now) number) (seen stmts.old.items)) }
{
    let rest = take_stmts(alloc, stmts);
    let done = push_behind(m, number, call, span, stmts);
    append_row(stmts, rest, done)
}

// `F = 1`
fn part_test<M: Meanings>(alloc: Global, m: &M, flag: u32, span: Span) -> Result<Expr, Memory>
    requires { M.fits m.now }
    ensures { IfOk result (λ made. plain_expr made ≡ EBinary Equal (variable (M.setting m.now) span flag) (EInteger 1 span) span) }
{
    binary_of(
        alloc,
        BinaryOp::Equal,
        variable_expr(m, flag, span),
        Ok(integer_expr(1, span)),
        span,
    )
}

// The part of a select that came, by the flag. The statements of the parts are taken from where they stand.
fn part_taken<M: Meanings>(
    alloc: Global,
    m: &M,
    number: u32,
    call: &Call,
    met: &mut Vec<Stmt>,
    other: &mut Vec<Stmt>,
    span: Span,
) -> Result<Stmt, Memory>
    requires { M.fits m.now }
    ensures { IfOk result (λ made. plain_stmt made ≡ part_taken (M.setting m.now) span (plain_call call.now) number (seen met.old.items) (seen other.old.items)) }
{
    let flag = flag_number(m, number, call, span)?;
    fill_empty(met, span)?;
    fill_empty(other, span)?;
    if_one(
        alloc,
        part_test(alloc, m, flag, span),
        Ok(take_stmts(alloc, met)),
        some_stmts(Ok(take_stmts(alloc, other))),
        span,
    )
}

// A call of this form, whose member is chosen where its callee is not known.
fn push_form<M: Meanings>(
    alloc: Global,
    m: &M,
    number: u32,
    call: &Call,
    form: Form,
    met: &mut Vec<Stmt>,
    other: &mut Vec<Stmt>,
    span: Span,
    out: &mut Vec<Stmt>,
) -> Result<(), Memory>
    requires { M.fits m.now }
    ensures { OnOk result (seen out.new.items ≡ in_front (seen out.old.items) (select_if (is_chosen (M.setting m.now) (plain_call call.now)) (formed form span) (M.setting m.now) span (plain_call call.now) number (seen met.old.items) (seen other.old.items))) }
{
    match moving_index(m, &call.task.index) {
        Some(_) => {
            push_made(out, call_by_member(alloc, m, number, call, form, span))?;
            push_made(out, part_taken(alloc, m, number, call, met, other, span))
        }
        None => push_made(
            out,
            known_call(alloc, m, number, call, form, met, other, span),
        ),
    }
}

// A call of this form with all that stands around it.
fn push_select<M: Meanings>(
    alloc: Global,
    m: &M,
    number: u32,
    call: &Call,
    form: Form,
    behind: &mut Vec<Stmt>,
    other: &mut Vec<Stmt>,
    span: Span,
    out: &mut Vec<Stmt>,
) -> Result<(), Memory>
    requires { M.fits m.now }
    ensures { OnOk result (seen out.new.items ≡ in_front (seen out.old.items) (select_image (formed form span) (M.setting m.now) span (plain_call call.now) number (seen behind.old.items) (seen other.old.items))) }
{
    push_before(alloc, m, number, call, span, out)?;
    put_behind(alloc, m, number, call, span, behind)?;
    push_form(alloc, m, number, call, form, behind, other, span, out)
}

/// What stands in the place of a conditional call goes behind other statements, where the variables of a number on are its own. The statements behind the call and those of the else part are taken from where they stand.
pub fn push_conditional<M: Meanings>(
    alloc: Global,
    m: &M,
    number: u32,
    call: &Call,
    behind: &mut Vec<Stmt>,
    otherwise: &mut Vec<Stmt>,
    span: Span,
    out: &mut Vec<Stmt>,
) -> Result<(), Memory>
    requires { M.fits m.now }
    ensures { OnOk result (seen out.new.items ≡ in_front (seen out.old.items) (conditional_image (M.setting m.now) span (plain_call call.now) number (seen behind.old.items) (seen otherwise.old.items))) }
{
    let form = Form::Conditional;
    push_select(alloc, m, number, call, form, behind, otherwise, span, out)
}

/// What stands in the place of a timed call, whose delay is in thousandths of a second, goes behind other statements, where the variables of a number on are its own. The statements behind the call and those behind the delay are taken from where they stand.
pub fn push_timed<M: Meanings>(
    alloc: Global,
    m: &M,
    number: u32,
    call: &Call,
    behind: &mut Vec<Stmt>,
    thousandths: u32,
    after: &mut Vec<Stmt>,
    span: Span,
    out: &mut Vec<Stmt>,
) -> Result<(), Memory>
    requires { M.fits m.now }
    ensures { OnOk result (seen out.new.items ≡ in_front (seen out.old.items) (timed_image (M.setting m.now) span (plain_call call.now) number (seen behind.old.items) thousandths (seen after.old.items))) }
{
    let form = Form::Timed(thousandths);
    push_select(alloc, m, number, call, form, behind, after, span, out)
}
