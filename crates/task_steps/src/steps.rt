// The step where a task stands.

ghost use Rattle.std.specs.Prelude.{◌≡◌, map, IfOk, OnOk, OnErr};
ghost use Rattle.ada_tree.specs.PlainStmt.{plain_body, plain_callee, plain_stmt};
ghost use Rattle.task_model.specs.Rendezvous.{behind_of};
ghost use Rattle.task_model.specs.Stands.{abort_stand, stand_at, stand_of};
ghost use Rattle.task_model.specs.Steps.{block_step};
ghost use Rattle.task_state.specs.Plain.{plain_task};
ghost use Rattle.task_steps.specs.Sequential.{is_step, stepped_there, sequential_step, aborted_none};

use crate::assigning::{step_assign, step_get, step_put};
use crate::choosing::{step_case, step_if};
use crate::leaving::{step_exit, step_raise};
use crate::looping::{step_loop, step_turn};
use ada_tree::{Body, Callee, Memory, Stmt, StmtKind};
use task_state::TaskState;
use task_state::frames::Next;

/// The step of a block statement, into a frame of its own (5.6). It fails by want of memory alone.
pub fn step_block<'p>(task: &mut TaskState<'p>, body: &'p Body) -> Result<(), Memory>
    ensures ok { OnOk result (plain_task task.new ≡ block_step (plain_body body.now) (behind_of (plain_task task.old)) (plain_task task.old)) }
    ensures err { OnErr result (plain_task task.new ≡ plain_task task.old) }
{
    task.enter_block(&body.stmts, &body.handlers)
}

// An abort of no names is passed; one of names is a synchronizing statement.
fn step_abort(task: &mut TaskState, names: &[Callee]) -> bool
    ensures answer { result ≡ is_step (abort_stand (plain_task task.old) (map plain_callee names.now)) }
    ensures step { plain_task task.new ≡ aborted_none (map plain_callee names.now) (behind_of (plain_task task.old)) (plain_task task.old) }
{
    if names.is_empty() {
        task.go_on();
        return true;
    }
    false
}

// The step at a statement, where it is no synchronizing one; and whether it is none.
fn step_at<'p>(task: &mut TaskState<'p>, stmt: &'p Stmt) -> Result<bool, Memory>
    ensures answer { IfOk result (λ went. went ≡ is_step (stand_at (plain_task task.old) (plain_stmt stmt.now))) }
    ensures ok { OnOk result (plain_task task.new ≡ stepped_there (stand_at (plain_task task.old) (plain_stmt stmt.now)) (plain_stmt stmt.now) (behind_of (plain_task task.old)) (plain_task task.old)) }
    ensures err { OnErr result (plain_task task.new ≡ plain_task task.old) }
{
    match &stmt.kind {
        StmtKind::Null => {
            task.go_on();
            Ok(true)
        }
        StmtKind::Assign { target, value } => {
            step_assign(task, target, value);
            Ok(true)
        }
        StmtKind::Delay { .. } => {
            task.go_on();
            Ok(true)
        }
        StmtKind::Exit { name, test } => {
            step_exit(task, *name, test);
            Ok(true)
        }
        StmtKind::Raise { name } => {
            step_raise(task, *name);
            Ok(true)
        }
        StmtKind::Abort { names } => Ok(step_abort(task, names)),
        StmtKind::Put { parts } => {
            step_put(task, parts, &[])?;
            Ok(true)
        }
        StmtKind::PutLine { parts } => {
            step_put(task, parts, b"\n")?;
            Ok(true)
        }
        StmtKind::NewLine => {
            step_put(task, &[], b"\n")?;
            Ok(true)
        }
        StmtKind::Get { target } => {
            step_get(task, target);
            Ok(true)
        }
        StmtKind::If { arms, otherwise } => {
            step_if(task, arms, otherwise)?;
            Ok(true)
        }
        StmtKind::Case {
            selector,
            arms,
            others,
        } => {
            step_case(task, selector, arms, others)?;
            Ok(true)
        }
        StmtKind::Block(body) => {
            step_block(task, body)?;
            Ok(true)
        }
        StmtKind::Loop {
            name,
            scheme,
            stmts,
        } => {
            step_loop(task, *name, scheme, stmts)?;
            Ok(true)
        }
        StmtKind::Call(_) => Ok(false),
        StmtKind::Accept(_) => Ok(false),
        StmtKind::Wait { .. } => Ok(false),
        StmtKind::Conditional { .. } => Ok(false),
        StmtKind::Timed { .. } => Ok(false),
    }
}

/// The step of a task where it stands at a statement that is no synchronizing one, or at the end of a loop's statements, and whether it
/// does. Elsewhere it stays as it is. It fails by want of memory alone, and then it is as before.
pub fn step_statement(task: &mut TaskState) -> Result<bool, Memory>
    ensures answer { IfOk result (λ went. went ≡ is_step (stand_of (plain_task task.old))) }
    ensures ok { OnOk result (plain_task task.new ≡ sequential_step (plain_task task.old)) }
    ensures err { OnErr result (plain_task task.new ≡ plain_task task.old) }
{
    match task.frames.next() {
        Next::Stmt(stmt) => step_at(task, stmt),
        Next::Turn(turns) => {
            step_turn(task, turns)?;
            Ok(true)
        }
        Next::EndOfBody { .. } => Ok(false),
        Next::EndOfUnit => Ok(false),
    }
}
