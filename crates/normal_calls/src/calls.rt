// Plain calls, and what stands in front of every call.

ghost use Rattle.std.specs.Prelude.{◌≡◌, OnOk};
ghost use Rattle.ada_tree.specs.PlainStmt.{SCall, plain_call, plain_callee, seen};
ghost use Rattle.task_model.specs.Frames.{in_front};
ghost use Rattle.normal_model.specs.Calls.{actual_number, actuals_before, call_before, call_to, entry_called, index_number, lists_called, plain_image, slots_called};
ghost use Rattle.normal_model.specs.Making.{kept_before, kept_if, one};
ghost use Rattle.normal_model.specs.Members.{callee_kept, chosen};
ghost use Rattle.normal_model.specs.Ranges.{family_range, subtype_of_range};

use crate::actuals::{push_actuals, push_behind};
use crate::call_forms::{Form, branch, known_callee};
use crate::called::{actuals_called, index_called, modes_called};
use crate::member_branches::call_by_member;
use crate::numbers::{actual_number, index_number};
use ada_tree::{Call, Callee, Memory, Span, Stmt};
use normal_lookups::pieces::{Meanings, moving_index, push_copy, push_made};
use std::alloc::Global;

/// The assignment of a callee's index to its variable, where it is not static.
pub(crate) fn push_callee_index<M: Meanings>(
    alloc: Global,
    m: &M,
    number: u32,
    callee: &Callee,
    span: Span,
    out: &mut Vec<Stmt>,
) -> Result<(), Memory>
    requires { M.fits m.now }
    ensures { OnOk result (seen out.new.items ≡ in_front (seen out.old.items) (kept_before (M.setting m.now) span (callee_kept (M.setting m.now) span (plain_callee callee.now)) number)) }
{
    match moving_index(m, &callee.index) {
        Some(index) => push_copy(alloc, m, number, index, span, out),
        None => Ok(()),
    }
}

// The assignment of a family's index to its variable.
fn push_family_index<M: Meanings>(
    alloc: Global,
    m: &M,
    number: u32,
    call: &Call,
    span: Span,
    out: &mut Vec<Stmt>,
) -> Result<(), Memory>
    requires { M.fits m.now }
    ensures { OnOk result (seen out.new.items ≡ in_front (seen out.old.items) (kept_before (M.setting m.now) span (kept_if (subtype_of_range (M.setting m.now).types span (family_range (M.setting m.now) (entry_called (M.setting m.now) (plain_call call.now)))) (lists_called (M.setting m.now) (plain_call call.now)).index) (index_number (M.setting m.now) span (plain_call call.now) number))) }
{
    match index_called(m, call) {
        Some(index) => {
            let place = index_number(m, number, call, span)?;
            push_copy(alloc, m, place, index, span, out)
        }
        None => Ok(()),
    }
}

// The assignments of the actuals to their variables.
fn push_actuals_called<M: Meanings>(
    alloc: Global,
    m: &M,
    number: u32,
    call: &Call,
    span: Span,
    out: &mut Vec<Stmt>,
) -> Result<(), Memory>
    requires { M.fits m.now }
    ensures { OnOk result (seen out.new.items ≡ in_front (seen out.old.items) (actuals_before (M.setting m.now) span (slots_called (M.setting m.now) (plain_call call.now)) (lists_called (M.setting m.now) (plain_call call.now)).actuals (actual_number (M.setting m.now) span (plain_call call.now) number))) }
{
    let first = actual_number(m, number, call, span)?;
    push_actuals(
        alloc,
        m,
        first,
        modes_called(m, call),
        actuals_called(m, call),
        span,
        out,
    )
}

/// What stands in front of a call.
pub(crate) fn push_before<M: Meanings>(
    alloc: Global,
    m: &M,
    number: u32,
    call: &Call,
    span: Span,
    out: &mut Vec<Stmt>,
) -> Result<(), Memory>
    requires { M.fits m.now }
    ensures { OnOk result (seen out.new.items ≡ in_front (seen out.old.items) (call_before (M.setting m.now) span (plain_call call.now) number)) }
{
    push_callee_index(alloc, m, number, &call.task, span, out)?;
    push_family_index(alloc, m, number, call, span, out)?;
    push_actuals_called(alloc, m, number, call, span, out)
}

// The call, or the choice of the member.
fn push_chosen<M: Meanings>(
    alloc: Global,
    m: &M,
    number: u32,
    call: &Call,
    span: Span,
    out: &mut Vec<Stmt>,
) -> Result<(), Memory>
    requires { M.fits m.now }
    ensures { OnOk result (seen out.new.items ≡ in_front (seen out.old.items) (chosen (M.setting m.now) span (plain_callee call.now.task) number (λ w. one (SCall (call_to (M.setting m.now) span (plain_call call.now) number w) span)))) }
{
    match moving_index(m, &call.task.index) {
        Some(_) => push_made(
            out,
            call_by_member(alloc, m, number, call, Form::Plain, span),
        ),
        None => {
            let name = known_callee(m, &call.task);
            push_made(out, branch(alloc, m, number, call, Form::Plain, name, span))
        }
    }
}

/// What stands in the place of a plain call goes behind other statements, where the variables of a number on are its own. The call stays as it is.
pub fn push_call<M: Meanings>(
    alloc: Global,
    m: &M,
    number: u32,
    call: &Call,
    span: Span,
    out: &mut Vec<Stmt>,
) -> Result<(), Memory>
    requires { M.fits m.now }
    ensures { OnOk result (seen out.new.items ≡ in_front (seen out.old.items) (plain_image (M.setting m.now) span (plain_call call.now) number)) }
{
    push_before(alloc, m, number, call, span, out)?;
    push_chosen(alloc, m, number, call, span, out)?;
    push_behind(m, number, call, span, out)
}
