// Exit and raise statements (5.7, 11.3).

ghost use Rattle.std.specs.Prelude.{◌≡◌, option_map};
ghost use Rattle.ada_tree.specs.PlainExpr.{plain_expr};
ghost use Rattle.task_model.specs.Frames.{raised_named};
ghost use Rattle.task_model.specs.Rendezvous.{behind_of};
ghost use Rattle.task_model.specs.Steps.{exception_meant, exit_step, exit_test, raise_step};
ghost use Rattle.task_state.specs.Plain.{plain_task};

use ada_tree::{Expr, NameId, Word};
use ada_value::Raised;
use task_state::TaskState;

// Whether an exit leaves: one without condition always does.
fn exit_test(task: &TaskState, test: &Option<Expr>) -> Result<bool, Raised>
    ensures { result ≡ exit_test (plain_task task.now) (option_map plain_expr test.now) }
{
    match test {
        Some(e) => task.condition(e),
        None => Ok(true),
    }
}

/// The step of an exit statement: out of the innermost loop, or of the one that it names, where its condition holds, and else on (5.7).
pub fn step_exit(task: &mut TaskState, name: Option<Word>, test: &Option<Expr>)
    ensures { plain_task task.new ≡ exit_step name (option_map plain_expr test.now) (behind_of (plain_task task.old)) (plain_task task.old) }
{
    match exit_test(task, test) {
        Ok(leaves) => {
            if leaves {
                task.exit(name);
            } else {
                task.go_on();
            }
        }
        Err(raised) => task.raise(raised),
    }
}

// The exception of a name.
fn raised_named(name: NameId) -> Raised
    ensures { result ≡ raised_named name }
{
    if name == NameId::CONSTRAINT_ERROR {
        Raised::Constraint
    } else if name == NameId::NUMERIC_ERROR {
        Raised::Numeric
    } else if name == NameId::PROGRAM_ERROR {
        Raised::Program
    } else if name == NameId::TASKING_ERROR {
        Raised::Tasking
    } else if name == NameId::STORAGE_ERROR {
        Raised::Storage
    } else if name == NameId::END_ERROR {
        Raised::End
    } else {
        Raised::Other(name)
    }
}

// The exception of a raise statement: the one that it names, and else the one that is being handled.
fn exception_meant(task: &TaskState, name: Option<Word>) -> Raised
    ensures { result ≡ exception_meant name (plain_task task.now) }
{
    match name {
        Some(word) => raised_named(word.name),
        None => task.handled(),
    }
}

/// The step of a raise statement (11.3).
pub fn step_raise(task: &mut TaskState, name: Option<Word>)
    ensures { plain_task task.new ≡ raise_step name (plain_task task.old) }
{
    let raised = exception_meant(task, name);
    task.raise(raised);
}
