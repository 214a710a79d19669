// Assignments, GET and PUT (5.2, 14.3).

ghost use Rattle.std.specs.Prelude.{◌≡◌, map, OnOk, OnErr};
ghost use Rattle.ada_tree.specs.PlainExpr.{plain_expr};
ghost use Rattle.ada_tree.specs.PlainStmt.{plain_part, plain_target};
ghost use Rattle.task_model.specs.Rendezvous.{behind_of};
ghost use Rattle.task_model.specs.Steps.{assign_step, get_step, got, put_step};
ghost use Rattle.task_state.specs.Plain.{plain_task};
ghost use Rattle.task_steps.specs.inner.Storing.{store_step};

use ada_tree::{Expr, Memory, Part, Target};
use ada_value::{Raised, Value};
use task_state::TaskState;

// A value comes to a place of a target, or CONSTRAINT_ERROR is raised.
fn store(task: &mut TaskState, target: &Target, place: usize, value: Value)
    ensures { plain_task task.new ≡ store_step (plain_target target.now) place value (behind_of (plain_task task.old)) (plain_task task.old) }
{
    match task.checked(target.name.name, value) {
        Ok(value) => {
            task.set(target.name.name, place, value);
            task.go_on();
        }
        Err(raised) => task.raise(raised),
    }
}

/// The step of an assignment statement: the target's index comes before the expression (5.2; this project's rule).
pub fn step_assign(task: &mut TaskState, target: &Target, value: &Expr)
    ensures { plain_task task.new ≡ assign_step (plain_target target.now) (plain_expr value.now) (behind_of (plain_task task.old)) (plain_task task.old) }
{
    let aim = task.aim(target);
    match aim {
        Ok(place) => match task.value(value) {
            Ok(value) => store(task, target, place, value),
            Err(raised) => task.raise(raised),
        },
        Err(raised) => task.raise(raised),
    }
}

// The next integer of the input comes to a place of a target; at the end of the input END_ERROR is raised.
fn get(task: &mut TaskState, target: &Target, place: usize)
    ensures { plain_task task.new ≡ got (plain_target target.now) (behind_of (plain_task task.old)) (plain_task task.old) place (plain_task task.old).input }
{
    match task.read() {
        Some(value) => store(task, target, place, value),
        None => task.raise(Raised::End),
    }
}

/// The step of a GET: the target's index comes before the input, of which nothing is taken where the index raises. A value that does not fit is
/// taken all the same (14.3; this project's rule).
pub fn step_get(task: &mut TaskState, target: &Target)
    ensures { plain_task task.new ≡ get_step (plain_target target.now) (behind_of (plain_task task.old)) (plain_task task.old) }
{
    match task.aim(target) {
        Ok(place) => get(task, target, place),
        Err(raised) => task.raise(raised),
    }
}

/// The step of a PUT, a PUT_LINE or a NEW_LINE: the text of its parts is written, with its closing behind it; where a part raises an
/// exception nothing is (14.3). It fails by want of memory alone.
pub fn step_put(task: &mut TaskState, parts: &[Part], closing: &[u8]) -> Result<(), Memory>
    ensures ok { OnOk result (plain_task task.new ≡ put_step (map plain_part parts.now) closing.now (behind_of (plain_task task.old)) (plain_task task.old)) }
    ensures err { OnErr result (plain_task task.new ≡ plain_task task.old) }
{
    match task.write(parts, closing)? {
        None => {
            task.go_on();
            Ok(())
        }
        Some(raised) => {
            task.raise(raised);
            Ok(())
        }
    }
}
