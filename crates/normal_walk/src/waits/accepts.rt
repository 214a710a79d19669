// Accept statements: the index that moves in front of one, and what is left.

ghost use Rattle.std.specs.Prelude.{◌≡◌, OnOk, option_copied, option_map};
ghost use Rattle.ada_tree.specs.PlainExpr.{plain_expr};
ghost use Rattle.ada_tree.specs.PlainStmt.{plain_accept, seen};
ghost use Rattle.task_model.specs.Frames.{in_front};
ghost use Rattle.normal_model.specs.Making.{moving};
ghost use Rattle.normal_model.specs.Waits.{accept_left, head_of};
ghost use Rattle.normal_walk.specs.waits.inner.Moved.{moved_before};

use ada_tree::{Accept, Expr, Memory, Span, Stmt};
use normal_lookups::pieces::{Meanings, moving_index, push_copy, variable_expr};
use std::alloc::Global;
use tree_rewriting::making::put_expr;

/// The index of an accept that is not static.
pub(crate) fn index_moving<'a, M: Meanings>(m: &M, accept: &'a Accept) -> Option<&'a Expr>
    requires { M.fits m.now }
    ensures { option_map plain_expr (option_copied result) ≡ moving (M.setting m.now).types (head_of (plain_accept accept.now)).index }
{
    moving_index(m, &accept.index)
}

/// The assignment of an accept's index to a variable, where it is not static, goes behind other statements.
pub(crate) fn push_index<M: Meanings>(
    alloc: Global,
    m: &M,
    number: u32,
    accept: &Accept,
    span: Span,
    out: &mut Vec<Stmt>,
) -> Result<(), Memory>
    requires { M.fits m.now }
    ensures { OnOk result (seen out.new.items ≡ in_front (seen out.old.items) (moved_before (M.setting m.now) span number (moving (M.setting m.now).types (head_of (plain_accept accept.now)).index))) }
{
    match index_moving(m, accept) {
        Some(index) => push_copy(alloc, m, number, index, span, out),
        None => Ok(()),
    }
}

/// The index of an accept that is not static becomes a variable.
pub(crate) fn leave_index<M: Meanings>(
    m: &M,
    number: u32,
    accept: &mut Accept,
    span: Span,
) -> Result<(), Memory>
    requires { M.fits m.now }
    ensures { OnOk result (plain_accept accept.new ≡ accept_left (record { setting = M.setting m.now; task = 0 }) span (plain_accept accept.old) number) }
{
    if moving_index(m, &accept.index).is_some() {
        put_expr(&mut accept.index, variable_expr(m, number, span))
    } else {
        Ok(())
    }
}
