// The parts of calls and waits that are taken without a rendezvous (9.7).

ghost use Rattle.std.specs.Prelude.{◌≡◌, true, option_map};
ghost use Rattle.ada_tree.specs.PlainStmt.{plain_stmt, seen, seen_maybe};
ghost use Rattle.task_model.specs.Rendezvous.{behind_of, took_delay, took_else};
ghost use Rattle.task_model.specs.Tasks.{entered, stmts_or_none};
ghost use Rattle.task_state.specs.Plain.{plain_task};
ghost use Rattle.task_local.specs.rendezvous.inner.Branches.{delay_part, else_part, part_taken};

use ada_tree::{Stmt, StmtKind};
use task_state::TaskState;
use task_state::frames::Next;
use task_waits::delay_stmts;

// The statements of a part that may be left out.
fn stmts_or_none<'p>(part: &'p Option<Vec<Stmt>>) -> &'p [Stmt]
    ensures { seen result.now ≡ stmts_or_none (seen_maybe part.now) }
{
    match part {
        Some(stmts) => stmts,
        None => &[],
    }
}

// The else part of a conditional call or a wait.
fn else_part<'p>(stmt: &'p Stmt) -> Option<&'p [Stmt]>
    ensures { option_map (λ stmts. seen stmts.now) result ≡ else_part (plain_stmt stmt.now) }
{
    match &stmt.kind {
        StmtKind::Conditional { otherwise, .. } => Some(otherwise),
        StmtKind::Wait { otherwise, .. } => Some(stmts_or_none(otherwise)),
        _ => None,
    }
}

// The statements behind a delay of a wait, or behind that of a timed call.
fn delay_part<'p>(stmt: &'p Stmt, k: u32) -> Option<&'p [Stmt]>
    ensures { option_map (λ stmts. seen stmts.now) result ≡ delay_part k (plain_stmt stmt.now) }
{
    match &stmt.kind {
        StmtKind::Timed { after, .. } => Some(after),
        StmtKind::Wait { alts, .. } => Some(delay_stmts(alts, k)),
        _ => None,
    }
}

/// Enters statements of the next statement, for which there is room.
pub(crate) fn enter_reserved<'p>(task: &mut TaskState<'p>, stmts: &'p [Stmt])
    requires { task.old.frames.reserved ≡ true }
    ensures { plain_task task.new ≡ entered (seen stmts.now) (behind_of (plain_task task.old)) (plain_task task.old) }
{
    match task.enter(stmts) {
        Ok(()) => {}
        Err(_) => {}
    }
}

// Enters a part of the next statement, where there is one.
fn take_part<'p>(task: &mut TaskState<'p>, part: Option<&'p [Stmt]>)
    requires { task.old.frames.reserved ≡ true }
    ensures { plain_task task.new ≡ part_taken (option_map (λ stmts. seen stmts.now) part.entry) (plain_task task.old) }
{
    match part {
        Some(stmts) => enter_reserved(task, stmts),
        None => {}
    }
}

/// Takes the else part of the conditional call or the selective wait at which the task stands (9.7.1, 9.7.2); elsewhere the task stays as
/// it is. It takes no memory: room for one frame was made before, by `reserve` of the frames.
pub fn take_else(task: &mut TaskState)
    requires { task.old.frames.reserved ≡ true }
    ensures { plain_task task.new ≡ took_else (plain_task task.old) }
{
    match task.frames.next() {
        Next::Stmt(stmt) => take_part(task, else_part(stmt)),
        Next::Turn(_) => {}
        Next::EndOfBody { .. } => {}
        Next::EndOfUnit => {}
    }
}

/// Goes on behind the `k`-th delay of the selective wait at which the task stands, counted from 1, or behind the delay of its timed call
/// (9.7.1, 9.7.3); elsewhere the task stays as it is. It takes no memory: room for one frame was made before, by `reserve` of the frames.
pub fn take_delay(task: &mut TaskState, k: u32)
    requires { task.old.frames.reserved ≡ true }
    ensures { plain_task task.new ≡ took_delay k (plain_task task.old) }
{
    match task.frames.next() {
        Next::Stmt(stmt) => take_part(task, delay_part(stmt, k)),
        Next::Turn(_) => {}
        Next::EndOfBody { .. } => {}
        Next::EndOfUnit => {}
    }
}
