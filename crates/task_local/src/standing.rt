// What a task stands at, and the values that it hands over there.

ghost use Rattle.std.specs.Prelude.{◌≡◌, ◌<◌, ◌≤◌, ◌^◌, List, [], OnOk, OnErr};
ghost use Rattle.std.specs.Vec.{vec_capacity};
ghost use Rattle.ada_tree.specs.PlainStmt.{plain_callee, plain_stmt};
ghost use Rattle.event_machine.specs.declared.Choice.{Choice};
ghost use Rattle.task_model.specs.Calls.{call_of, called_by, values_handed, opening_values};
ghost use Rattle.task_model.specs.Setting.{callee_task};
ghost use Rattle.task_model.specs.Stands.{name_stand, stand_at, stand_of};
ghost use Rattle.task_model.specs.Tasks.{rest_of, vars_of};
ghost use Rattle.task_local.specs.room.Fitting.{room_next};
ghost use Rattle.task_state.specs.Plain.{plain_task};
ghost use Rattle.task_waits.specs.Room.{room_at};
ghost use Rattle.task_waits.specs.Standing.{stand_as};

use crate::Choice;
use ada_tree::{Callee, Memory, Stmt, StmtKind};
use ada_value::Value;
use task_state::TaskState;
use task_state::frames::Next;
use task_waits::calls::Here;
use task_waits::{Stand, stand_at};

// What a task stands at with this statement next, for whose choices there is room in the list.
fn stand_before(state: &TaskState, stmt: &Stmt, choices: &mut Vec<Choice>) -> Stand
    requires wide { room_at (plain_stmt stmt.now) ≤ vec_capacity choices.old }
    requires few { room_at (plain_stmt stmt.now) < 2 ^ 32 }
    ensures stand { stand_as result choices.new.items ≡ stand_at (plain_task state.now) (plain_stmt stmt.now) }
    ensures same_room { vec_capacity choices.new ≡ vec_capacity choices.old }
{
    let here = Here {
        links: state.links,
        number: state.number,
        objects: &state.objects,
    };
    match stand_at(&here, stmt, choices) {
        Ok(stand) => stand,
        Err(_) => unreachable!(),
    }
}

/// What a task stands at (9.4, 9.5, 9.7, 9.10), where it is behind no name of an abort statement. The choices of a wait are put in place of
/// what is in the list, which has room for them; no memory is taken.
pub(crate) fn stand_here(state: &TaskState, choices: &mut Vec<Choice>) -> Stand
    requires wide { room_next (rest_of (plain_task state.now)) ≤ vec_capacity choices.old }
    requires few { room_next (rest_of (plain_task state.now)) < 2 ^ 32 }
    ensures stand { stand_as result choices.new.items ≡ stand_of (plain_task state.now) }
    ensures same_room { vec_capacity choices.new ≡ vec_capacity choices.old }
{
    match state.frames.next() {
        Next::Stmt(stmt) => stand_before(state, stmt, choices),
        Next::Turn(_) => Stand::Step,
        Next::EndOfBody { .. } => Stand::Finish,
        Next::EndOfUnit => Stand::End,
    }
}

/// What a task stands at with this name of an abort statement next (9.10).
pub(crate) fn stand_at_name(state: &TaskState, name: &Callee) -> Stand
    ensures { (choices : List Choice) → stand_as result choices ≡ name_stand (callee_task (plain_task state.now).setting (vars_of (plain_task state.now)) (plain_callee name.now)) }
{
    let here = Here {
        links: state.links,
        number: state.number,
        objects: &state.objects,
    };
    match here.task_of(name) {
        Ok(task) => Stand::Abort { task },
        Err(raised) => Stand::Raises(raised),
    }
}

// The opening values of the call that a statement is; another one hands over none.
fn actuals_at(state: &TaskState, stmt: &Stmt, values: &mut Vec<Value>) -> Result<(), Memory>
    ensures ok { OnOk result (values.new.items ≡ opening_values (called_by (plain_task state.now).setting (vars_of (plain_task state.now)) (call_of (plain_stmt stmt.now)))) }
    ensures err { OnErr result (values.new.items ≡ []) }
{
    let here = Here {
        links: state.links,
        number: state.number,
        objects: &state.objects,
    };
    match &stmt.kind {
        StmtKind::Call(call) => here.actuals(call, values),
        StmtKind::Conditional { call, .. } => here.actuals(call, values),
        StmtKind::Timed { call, .. } => here.actuals(call, values),
        _ => {
            values.clear();
            Ok(())
        }
    }
}

/// The opening values of the call at which a task stands, in place of what is in the list; none where it stands at no call, or where the
/// call raises (6.2, 6.4.1). After an error the list is empty.
pub(crate) fn actuals_here(state: &TaskState, values: &mut Vec<Value>) -> Result<(), Memory>
    ensures ok { OnOk result (values.new.items ≡ values_handed (plain_task state.now)) }
    ensures err { OnErr result (values.new.items ≡ []) }
{
    match state.frames.next() {
        Next::Stmt(stmt) => actuals_at(state, stmt, values),
        Next::Turn(_) => {
            values.clear();
            Ok(())
        }
        Next::EndOfBody { .. } => {
            values.clear();
            Ok(())
        }
        Next::EndOfUnit => {
            values.clear();
            Ok(())
        }
    }
}
