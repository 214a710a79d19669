// The normal form of one statement, whose parts are rewritten already.

ghost use Rattle.std.specs.Prelude.{◌≡◌, ℕ, OnOk};
ghost use Rattle.ada_tree.specs.PlainStmt.{plain_stmt, seen};
ghost use Rattle.task_model.specs.Frames.{in_front};
ghost use Rattle.normal_model.specs.NormalStmts.{normal_image};

use crate::waits::accepts::{leave_index, push_index};
use crate::waits::closing::push_closed_test;
use ada_tree::{Memory, Stmt, StmtKind};
use normal_calls::{push_aborts, push_call, push_conditional, push_timed};
use normal_lookups::pieces::{Meanings, push_taken};
use std::alloc::Global;

/// What stands in the place of a statement goes behind other statements, where the variables of a number on are its own. The statement may be taken apart. It says so of every task that may run the unit.
pub fn put_image<M: Meanings>(
    alloc: Global,
    m: &M,
    number: u32,
    stmt: &mut Stmt,
    out: &mut Vec<Stmt>,
) -> Result<(), Memory>
    requires { M.fits m.now }
    ensures { OnOk result ((t : ℕ) → seen out.new.items ≡ in_front (seen out.old.items) (normal_image (record { setting = M.setting m.now; task = t }) number (plain_stmt stmt.old))) }
{
    let span = stmt.span;
    match &mut stmt.kind {
        StmtKind::Call(call) => push_call(alloc, m, number, call, span, out),
        StmtKind::Conditional {
            call,
            behind,
            otherwise,
        } => push_conditional(alloc, m, number, call, behind, otherwise, span, out),
        StmtKind::Timed {
            call,
            behind,
            thousandths,
            after,
        } => push_timed(
            alloc,
            m,
            number,
            call,
            behind,
            *thousandths,
            after,
            span,
            out,
        ),
        StmtKind::Accept(accept) => {
            push_index(alloc, m, number, accept, span, out)?;
            leave_index(m, number, accept, span)?;
            push_taken(out, stmt)
        }
        StmtKind::Wait { alts, otherwise } => {
            push_closed_test(alloc, alts, otherwise, span, out)?;
            push_taken(out, stmt)
        }
        StmtKind::Abort { names } => push_aborts(alloc, m, number, names, span, out),
        StmtKind::Null
        | StmtKind::Assign { .. }
        | StmtKind::Delay { .. }
        | StmtKind::Exit { .. }
        | StmtKind::Raise { .. }
        | StmtKind::Put { .. }
        | StmtKind::PutLine { .. }
        | StmtKind::NewLine
        | StmtKind::Get { .. }
        | StmtKind::If { .. }
        | StmtKind::Case { .. }
        | StmtKind::Block(_)
        | StmtKind::Loop { .. } => push_taken(out, stmt),
    }
}
