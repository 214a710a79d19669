// The end of an accept body (9.5, 11.5).

ghost use Rattle.std.specs.Prelude.{◌≡◌, [], IfOk, OnErr, OnOk};
ghost use Rattle.event_machine.specs.Offers.{Finishes};
ghost use Rattle.task_model.specs.Rendezvous.{finished, pending_of};
ghost use Rattle.task_model.specs.Stands.{offer_of};
ghost use Rattle.task_state.specs.Plain.{plain_task};
ghost use Rattle.task_local.specs.rendezvous.Handed.{handed_back};

use ada_tree::Memory;
use ada_value::{Raised, Value};
use task_state::TaskState;
use task_state::frames::Next;
use task_waits::calls::finals;

/// The exception that is pending at the end of the accept body at which the task stands, and, where none is, the last values of the
/// formals that come back, in order, in place of what is in the list (6.2, 11.5). Where one is pending no value goes back, and the list is
/// empty. After an error, which comes by want of memory, it is empty too.
pub fn finals_of(task: &TaskState, values: &mut Vec<Value>) -> Result<Option<Raised>, Memory>
    requires { offer_of (plain_task task.now) ≡ Finishes }
    ensures pending { IfOk result (λ pending. pending ≡ pending_of (plain_task task.now)) }
    ensures ok { OnOk result (values.new.items ≡ handed_back (plain_task task.now)) }
    ensures err { OnErr result (values.new.items ≡ []) }
{
    values.clear();
    match task.frames.next() {
        Next::Stmt(_) => Ok(None),
        Next::Turn(_) => Ok(None),
        Next::EndOfBody {
            formals,
            pending,
            ..
        } => match pending {
            Some(raised) => Ok(Some(raised)),
            None => {
                finals(&task.objects, formals, values)?;
                Ok(None)
            }
        },
        Next::EndOfUnit => Ok(None),
    }
}

/// Goes on behind the accept at the end of whose body the task stands, where a pending exception is raised; the formals go (9.5, 11.5). It
/// takes no memory.
pub fn close_accept(task: &mut TaskState)
    requires { offer_of (plain_task task.old) ≡ Finishes }
    ensures { plain_task task.new ≡ finished (plain_task task.old) }
{
    let left = task.frames.close();
    task.objects.leave(left.formals);
    task.objects.leave(left.parameters);
}
