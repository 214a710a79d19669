// Abort statements, one for each name.

ghost use Rattle.std.specs.Prelude.{◌≡◌, OnOk, map};
ghost use Rattle.ada_tree.specs.PlainStmt.{plain_callee, seen};
ghost use Rattle.task_model.specs.Frames.{in_front};
ghost use Rattle.normal_model.specs.Aborts.{abort_image, abort_of, callee_aborted, callees_aborted};
ghost use Rattle.normal_model.specs.Members.{chosen};

use crate::call_forms::known_callee;
use crate::calls::push_callee_index;
use crate::member_branches::abort_by_member;
use crate::numbers::behind_callee;
use ada_stmt_copy::building::abort_of;
use ada_tree::{Callee, Memory, Span, Stmt};
use normal_lookups::pieces::{Meanings, moving_index, push_made};
use std::alloc::Global;
use tree_rewriting::making::abort_one;

// The abort of a callee, or the choice of the member.
fn push_chosen<M: Meanings>(
    alloc: Global,
    m: &M,
    number: u32,
    callee: &Callee,
    span: Span,
    out: &mut Vec<Stmt>,
) -> Result<(), Memory>
    requires { M.fits m.now }
    ensures { OnOk result (seen out.new.items ≡ in_front (seen out.old.items) (chosen (M.setting m.now) span (plain_callee callee.now) number (abort_of span))) }
{
    match moving_index(m, &callee.index) {
        Some(_) => push_made(out, abort_by_member(alloc, m, number, callee, span)),
        None => {
            let name = known_callee(m, callee);
            push_made(out, abort_one(alloc, name, span))
        }
    }
}

// The abort of one callee.
fn push_abort<M: Meanings>(
    alloc: Global,
    m: &M,
    number: u32,
    callee: &Callee,
    span: Span,
    out: &mut Vec<Stmt>,
) -> Result<(), Memory>
    requires { M.fits m.now }
    ensures { OnOk result (seen out.new.items ≡ in_front (seen out.old.items) (callee_aborted (M.setting m.now) span (plain_callee callee.now) number)) }
{
    push_callee_index(alloc, m, number, callee, span, out)?;
    push_chosen(alloc, m, number, callee, span, out)
}

// The aborts of callees, one behind the other.
fn push_each<M: Meanings>(
    alloc: Global,
    m: &M,
    number: u32,
    callees: &[Callee],
    span: Span,
    out: &mut Vec<Stmt>,
) -> Result<(), Memory>
    requires { M.fits m.now }
    ensures { OnOk result (seen out.new.items ≡ in_front (seen out.old.items) (callees_aborted (M.setting m.now) span (map plain_callee callees.now) number)) }
{
    let mut next = number;
    for callee in callees {
        push_abort(alloc, m, next, callee, span, out)?;
        next = behind_callee(m, next, callee, span)?;
    }
    Ok(())
}

/// What stands in the place of an abort statement of these callees goes behind other statements, where the variables of a number on are its own.
pub fn push_aborts<M: Meanings>(
    alloc: Global,
    m: &M,
    number: u32,
    callees: &[Callee],
    span: Span,
    out: &mut Vec<Stmt>,
) -> Result<(), Memory>
    requires { M.fits m.now }
    ensures { OnOk result (seen out.new.items ≡ in_front (seen out.old.items) (abort_image (M.setting m.now) span (map plain_callee callees.now) number)) }
{
    if callees.is_empty() {
        push_made(out, abort_of(Ok(Vec::new(alloc)), span))
    } else {
        push_each(alloc, m, number, callees, span, out)
    }
}
