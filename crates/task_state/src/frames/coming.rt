// What comes next for a task.

ghost use Rattle.std.specs.Prelude.{[]};
ghost use Rattle.ada_tree.specs.PlainStmt.{no_stmt};
ghost use Rattle.task_state.specs.frames.Coming.{IsNext};
ghost use Rattle.task_state.specs.frames.Seen.{around, IsAtStatement};

use crate::frames::frame::{Place, Turns};
use ada_tree::Stmt;
use ada_value::Raised;
use task_model::FormalParameter;

/// What comes next for a task, by its innermost frame.
#[derive(Clone, Copy)]
pub enum Next<'p> {
    /// A statement.
    Stmt(&'p Stmt),
    /// Behind the last statement of a loop: its next turn, or its leave.
    Turn(Turns<'p>),
    /// The end of an accept body, with the exception that is pending there.
    EndOfBody {
        caller: u32,
        formals: &'p [FormalParameter],
        pending: Option<Raised>,
    },
    /// The end of the unit's body.
    EndOfUnit,
}

// What comes at the end of a frame that stands in this place and is not over.
pub(crate) fn end_of<'p>(place: Place<'p>) -> Next<'p>
    requires { IsAtStatement [] place }
    ensures { IsNext result no_stmt (around place.entry) }
{
    match place {
        Place::Inside => Next::EndOfUnit,
        Place::OwnBody { .. } => Next::EndOfUnit,
        Place::Block { .. } => Next::EndOfUnit,
        Place::Handling { .. } => Next::EndOfUnit,
        Place::Loop { turns, .. } => Next::Turn(turns),
        Place::Opened {
            caller,
            formals,
            pending,
        } => Next::EndOfBody {
            caller,
            formals,
            pending,
        },
    }
}
