// An accept body is opened (9.5).

ghost use Rattle.std.specs.Prelude.{◌≡◌, OnErr, OnOk};
ghost use Rattle.task_model.specs.Rendezvous.{alternative_opened, body_opened};
ghost use Rattle.task_model.specs.Waits.{alternative_for};
ghost use Rattle.task_state.specs.Plain.{plain_task};
ghost use Rattle.task_waits.specs.Standing.{parts_opened, plain_parts};

use crate::rendezvous::conforming::lent_formals;
use ada_tree::Memory;
use ada_value::Value;
use task_model::FormalParameter;
use task_state::TaskState;
use task_state::frames::Next;
use task_waits::calls::{Here, Member, open_formals};
use task_waits::{Accepting, alternative_for, no_parts};

// The parts of the accept that is taken where the task stands.
fn accepting<'p>(task: &TaskState<'p>, member: Member) -> Accepting<'p>
    ensures { plain_parts result ≡ parts_opened (alternative_for (plain_task task.now) member.entry member.index) }
{
    match task.frames.next() {
        Next::Stmt(stmt) => {
            let here = Here {
                links: task.links,
                number: task.number,
                objects: &task.objects,
            };
            alternative_for(&here, stmt, member)
        }
        Next::Turn(_) => no_parts(),
        Next::EndOfBody { .. } => no_parts(),
        Next::EndOfUnit => no_parts(),
    }
}

// Opens an accept body with these formals.
fn open_body<'p>(
    task: &mut TaskState<'p>,
    caller: u32,
    formals: &'p [FormalParameter],
    parts: Accepting<'p>,
    values: &[Value],
) -> Result<(), Memory>
    ensures ok { OnOk result (plain_task task.new ≡ body_opened caller formals.now (plain_parts parts.entry).body (plain_parts parts.entry).behind values.now (plain_task task.old)) }
    ensures err { OnErr result (plain_task task.new ≡ plain_task task.old) }
{
    open_formals(
        task.links.types().types(),
        &mut task.objects,
        formals,
        values,
    )?;
    match task.frames.open(caller, formals, parts.body, parts.behind) {
        Ok(()) => Ok(()),
        Err(_) => {
            task.objects.leave(formals.len());
            Err(Memory)
        }
    }
}

/// Opens the body of the accept that is taken for a caller of this member where the task stands: of the accept statement, or of the first
/// open alternative of the selective wait that accepts the member (9.5, 9.7.1). The formals become the latest variables, with these values
/// in order. It fails by want of memory, and then the task is as before. Where the formals of the accept are not those of the entry, in name,
/// mode and subtype, as in no legal program, the answer is want of memory too.
pub fn open_accept<'p>(
    task: &mut TaskState<'p>,
    member: Member,
    caller: u32,
    values: &[Value],
) -> Result<(), Memory>
    ensures ok { OnOk result (plain_task task.new ≡ alternative_opened caller (alternative_for (plain_task task.old) member.entry member.index) values.now (plain_task task.old)) }
    ensures err { OnErr result (plain_task task.new ≡ plain_task task.old) }
{
    let parts = accepting(task, member);
    match lent_formals(task.links, member.entry, parts.formals) {
        Some(formals) => open_body(task, caller, formals, parts, values),
        None => Err(Memory),
    }
}
