// Values come back to a call (6.4.1).

ghost use Rattle.std.specs.Prelude.{◌≡◌, Some, option_map, true};
ghost use Rattle.ada_tree.specs.PlainStmt.{plain_call, plain_stmt, seen, stmt_then};
ghost use Rattle.task_model.specs.Calls.{call_of, called};
ghost use Rattle.task_model.specs.Rendezvous.{behind_of, copies_at, more_at, returned};
ghost use Rattle.task_model.specs.Tasks.{rest_of};
ghost use Rattle.task_state.specs.Plain.{plain_task};
ghost use Rattle.task_waits.specs.Standing.{task_with};
ghost use Rattle.task_waits.specs.calls.Looks.{member_called};

use crate::rendezvous::branches::enter_reserved;
use ada_tree::{Call, Stmt, StmtKind};
use ada_value::{Raised, Value};
use task_links::Links;
use task_links::store::Objects;
use task_state::TaskState;
use task_state::frames::Next;
use task_waits::calls::{Here, Member, copy_back, lists_of};

// The call of a statement, of any form.
fn call_of<'p>(stmt: &'p Stmt) -> Option<&'p Call>
    ensures { option_map (λ call. plain_call call.now) result ≡ call_of (plain_stmt stmt.now) }
{
    match &stmt.kind {
        StmtKind::Call(call) => Some(call),
        StmtKind::Conditional { call, .. } => Some(call),
        StmtKind::Timed { call, .. } => Some(call),
        _ => None,
    }
}

// The statements behind the call in its statement.
fn more_at<'p>(stmt: &'p Stmt) -> &'p [Stmt]
    ensures { seen result.now ≡ more_at (plain_stmt stmt.now) }
{
    match &stmt.kind {
        StmtKind::Conditional { behind, .. } => behind,
        StmtKind::Timed { behind, .. } => behind,
        _ => &[],
    }
}

// The member that a call names where these variables are.
fn member_called(
    links: &Links,
    number: u32,
    objects: &Objects,
    call: &Call,
) -> Result<Member, Raised>
    ensures { result ≡ member_called (called links.now objects.now (plain_call call.now)) }
{
    let here = Here {
        links,
        number,
        objects,
    };
    here.called(call)
}

// Values come back to the actuals of a call, where it could be evaluated; the exception that stopped them is the answer.
fn copy_to_call(
    links: &Links,
    number: u32,
    objects: &mut Objects,
    call: &Call,
    values: &[Value],
) -> Option<Raised>
    ensures { record { vars = objects.new; stopped = result } ≡ copies_at (task_with links.now number objects.old) (Some (plain_call call.now)) values.now }
{
    match member_called(links, number, objects, call) {
        Ok(member) => {
            let lists = lists_of(links, member.entry, &call.args);
            let parameters = links.entry_parameters(member.entry);
            copy_back(objects, parameters, lists.actuals, values)
        }
        Err(_) => None,
    }
}

// The same for the call of a statement, if it has one.
fn copy_to_stmt(
    links: &Links,
    number: u32,
    objects: &mut Objects,
    stmt: &Stmt,
    values: &[Value],
) -> Option<Raised>
    ensures { record { vars = objects.new; stopped = result } ≡ copies_at (task_with links.now number objects.old) (call_of (plain_stmt stmt.now)) values.now }
{
    match call_of(stmt) {
        Some(call) => copy_to_call(links, number, objects, call, values),
        None => None,
    }
}

// Values come back where the task stands at a statement.
fn come_back_at<'p>(task: &mut TaskState<'p>, stmt: &'p Stmt, values: &[Value])
    requires reserved { task.old.frames.reserved ≡ true }
    requires next { rest_of (plain_task task.old) ≡ stmt_then (plain_stmt stmt.now) (behind_of (plain_task task.old)) }
    ensures { plain_task task.new ≡ returned values.now (plain_task task.old) }
{
    let stopped = copy_to_stmt(task.links, task.number, &mut task.objects, stmt, values);
    match stopped {
        Some(raised) => task.raise(raised),
        None => enter_reserved(task, more_at(stmt)),
    }
}

/// The values come back to the actuals of the call at which the task stands, in the order of the formals, and the task goes on behind the
/// call; the first value that does not fit its variable raises CONSTRAINT_ERROR at the call, and the earlier ones stay (6.4.1, 9.5). It
/// takes no memory: room for one frame was made before, by `reserve` of the frames.
pub fn come_back(task: &mut TaskState, values: &[Value])
    requires { task.old.frames.reserved ≡ true }
    ensures { plain_task task.new ≡ returned values.now (plain_task task.old) }
{
    match task.frames.next() {
        Next::Stmt(stmt) => come_back_at(task, stmt, values),
        Next::Turn(_) => task.go_on(),
        Next::EndOfBody { .. } => task.go_on(),
        Next::EndOfUnit => task.go_on(),
    }
}
