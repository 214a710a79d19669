// One frame of the code.

ghost use Rattle.std.specs.Prelude.{◌≡◌, ◌≤◌, ◌∷◌, [], List, Some, None, option_map, IfSome};
ghost use Rattle.ada_tree.specs.PlainStmt.{seen};
ghost use Rattle.task_model.specs.Frames.{raised_name, is_for, is_left, handler_for, brought_by};
ghost use Rattle.task_model.specs.Rendezvous.{behind_in};

use ada_tree::{Expr, Handler, NameId, Stmt, Word};
use ada_value::Raised;
use task_model::FormalParameter;

/// How a loop goes on (5.5): without end, while a condition holds, or by counting, backwards or not, to a last position.
#[derive(Clone, Copy)]
pub enum Turns<'p> {
    Endless,
    While(&'p Expr),
    Counting { backwards: bool, last: i64 },
}

/// What a frame stands in.
#[derive(Clone, Copy)]
pub(crate) enum Place<'p> {
    /// A piece: its statements stand in front of those of the next frame.
    Inside,
    /// The unit's own body, with its handlers and the exception whose handler was taken.
    OwnBody {
        handlers: &'p [Handler],
        taken: Option<Raised>,
    },
    /// The statements of a block, with the block's handlers.
    Block {
        handlers: &'p [Handler],
    },
    /// A handler of a block, taken for this exception.
    Handling {
        raised: Raised,
    },
    /// A loop, with its statements for the next turn.
    Loop {
        name: Option<Word>,
        turns: Turns<'p>,
        stmts: &'p [Stmt],
    },
    /// An opened accept body, with the exception that has left its statements.
    Opened {
        caller: u32,
        formals: &'p [FormalParameter],
        pending: Option<Raised>,
    },
}

/// The statements that are left, the next one first, and what they stand in.
#[derive(Clone, Copy)]
pub(crate) struct Frame<'p> {
    pub(crate) rest: &'p [Stmt],
    pub(crate) place: Place<'p>,
}

impl<'p> Turns<'p> {
    ghost use Rattle.task_state.specs.frames.Seen.{turns_as};

    // How many variables a loop brings: its parameter, where it counts.
    pub(crate) fn brought(self) -> usize
        ensures count { result ≡ brought_by (turns_as self.entry) }
        ensures few { result ≤ 1 }
    {
        match self {
            Turns::Endless => 0,
            Turns::While(_) => 0,
            Turns::Counting { .. } => 1,
        }
    }
}

impl<'p> Frame<'p> {
    ghost use Rattle.task_state.specs.frames.Seen.{is_over, stack_of, parts_of, IsGrounded, IsAtStatement};
    ghost use Rattle.task_state.specs.frames.inner.Catching.{caught_in, holds_exits, is_exited, parameters_in, handled_in, caller_in};
    ghost use Rattle.task_state.specs.frames.Stack.{with_part, passed};

    // The statements behind the next one.
    fn behind(self) -> &'p [Stmt]
        ensures { seen result.now ≡ behind_in (seen self.entry.rest.now) }
    {
        match self.rest.split_first() {
            Some((_, behind)) => behind,
            None => &[],
        }
    }

    // The frame behind its next statement.
    pub(crate) fn passed(self) -> Frame<'p>
        requires { IsAtStatement self.rest.now self.place }
        ensures rest { (fs : List Frame) → stack_of result fs ≡ passed (stack_of self.entry fs) }
        ensures place { result.place ≡ self.entry.place }
    {
        Frame {
            rest: self.behind(),
            place: self.place,
        }
    }

    // The frame at its end.
    pub(crate) fn at_end(self) -> Frame<'p>
        ensures rest { result.rest.now ≡ [] }
        ensures place { result.place ≡ self.entry.place }
    {
        Frame {
            rest: &[],
            place: self.place,
        }
    }

    // Whether the frame is left at once: a piece, a block or a handler of a block with no statement left.
    pub(crate) fn is_over(self) -> bool
        ensures { result ≡ is_over self.entry.rest.now self.entry.place }
    {
        if !self.rest.is_empty() {
            return false;
        }
        match self.place {
            Place::Inside => true,
            Place::OwnBody { .. } => false,
            Place::Block { .. } => true,
            Place::Handling { .. } => true,
            Place::Loop { .. } => false,
            Place::Opened { .. } => false, // its end is an action
        }
    }

    // The frame in place of this one as an exception is raised in it, where it goes no further.
    pub(crate) fn caught(self, raised: Raised) -> Option<Frame<'p>>
        ensures lands { (fs : List Frame) → option_map (λ f. stack_of f fs) result ≡ option_map (λ part. with_part part (parts_of fs)) (caught_in raised self.entry.place) }
        ensures grounded { (fs : List Frame) → IsGrounded self.entry.place fs → IfSome result (λ f. IsGrounded f.place fs) }
    {
        match self.place {
            Place::Inside => None,
            Place::OwnBody {
                handlers,
                taken: None,
            } => Some(unit_caught(raised, handlers)),
            Place::OwnBody { taken: Some(_), .. } => Some(self.at_end()),
            Place::Block { handlers } => block_caught(raised, handlers),
            Place::Handling { .. } => None,
            Place::Loop { .. } => None,
            Place::Opened {
                caller,
                formals,
                ..
            } => Some(Frame {
                rest: &[],
                place: Place::Opened {
                    caller,
                    formals,
                    pending: Some(raised),
                },
            }),
        }
    }

    // Whether no exit goes beyond the frame.
    pub(crate) fn holds_exits(self) -> bool
        ensures { result ≡ holds_exits self.entry.place }
    {
        match self.place {
            Place::Inside => false,
            Place::OwnBody { .. } => true,
            Place::Block { .. } => false,
            Place::Handling { .. } => false,
            Place::Loop { .. } => false,
            Place::Opened { .. } => true,
        }
    }

    // Whether the frame is the loop that an exit leaves.
    pub(crate) fn is_exited(self, name: Option<Word>) -> bool
        ensures { result ≡ is_exited name self.entry.place }
    {
        match self.place {
            Place::Inside => false,
            Place::OwnBody { .. } => false,
            Place::Block { .. } => false,
            Place::Handling { .. } => false,
            Place::Loop { name: own, .. } => is_left(name, own),
            Place::Opened { .. } => false,
        }
    }

    // How many variables go as an exception or an exit leaves the frame.
    pub(crate) fn parameters(self) -> usize
        ensures count { result ≡ parameters_in self.entry.place }
        ensures few { result ≤ 1 }
    {
        match self.place {
            Place::Inside => 0,
            Place::OwnBody { .. } => 0,
            Place::Block { .. } => 0,
            Place::Handling { .. } => 0,
            Place::Loop { turns, .. } => turns.brought(),
            Place::Opened { .. } => 0,
        }
    }

    // The exception whose handler the frame is.
    pub(crate) fn handled(self) -> Option<Raised>
        ensures { result ≡ handled_in self.entry.place }
    {
        match self.place {
            Place::Inside => None,
            Place::OwnBody { taken, .. } => taken,
            Place::Block { .. } => None,
            Place::Handling { raised } => Some(raised),
            Place::Loop { .. } => None,
            Place::Opened { .. } => None, // what is handled around it is handled in it
        }
    }

    // The caller of an opened accept body.
    pub(crate) fn caller(self) -> Option<u32>
        ensures { result ≡ caller_in self.entry.place }
    {
        match self.place {
            Place::Inside => None,
            Place::OwnBody { .. } => None,
            Place::Block { .. } => None,
            Place::Handling { .. } => None,
            Place::Loop { .. } => None,
            Place::Opened { caller, .. } => Some(caller),
        }
    }
}

ghost use Rattle.std.specs.Prelude.{◌==◌};
ghost use Rattle.std.specs.List.{list_any};
ghost use Rattle.task_state.specs.frames.Seen.{stack_of, seen_handlers, parts_of, IsUnit, IsGrounded};
ghost use Rattle.task_state.specs.frames.inner.Catching.{unit_caught, block_caught};
ghost use Rattle.task_state.specs.frames.Stack.{with_part};

// The unit's body as an exception comes to it: in its handler, or at its end.
fn unit_caught<'p>(raised: Raised, handlers: &'p [Handler]) -> Frame<'p>
    ensures lands { (fs : List Frame) → stack_of result fs ≡ with_part (unit_caught (handler_for raised (seen_handlers handlers.now)) raised (seen_handlers handlers.now)) (parts_of fs) }
    ensures unit { IsUnit result.place }
{
    match handler_for(raised, handlers) {
        Some(stmts) => Frame {
            rest: stmts,
            place: Place::OwnBody {
                handlers,
                taken: Some(raised),
            },
        },
        None => Frame {
            rest: &[],
            place: Place::OwnBody {
                handlers,
                taken: None,
            },
        },
    }
}

// A block as an exception comes to it, where it has a handler for it.
fn block_caught<'p>(raised: Raised, handlers: &'p [Handler]) -> Option<Frame<'p>>
    ensures lands { (fs : List Frame) → option_map (λ f. stack_of f fs) result ≡ option_map (λ part. with_part part (parts_of fs)) (block_caught (handler_for raised (seen_handlers handlers.now)) raised) }
    ensures grounded { (f : Frame) (fs : List Frame) → IfSome result (λ landed. IsGrounded f.place fs → IsGrounded landed.place (f ∷ fs)) }
{
    match handler_for(raised, handlers) {
        Some(stmts) => Some(Frame {
            rest: stmts,
            place: Place::Handling { raised },
        }),
        None => None,
    }
}

// The statements of the first handler that is for an exception.
fn handler_for<'p>(raised: Raised, handlers: &'p [Handler]) -> Option<&'p [Stmt]>
    ensures { option_map (λ stmts. seen stmts.now) result ≡ handler_for raised (seen_handlers handlers.now) }
{
    for handler in handlers {
        if is_for(raised, &handler.names) {
            return Some(&handler.stmts);
        }
    }
    None
}

// Whether a handler with these names is for an exception.
fn is_for(raised: Raised, names: &[Word]) -> bool
    ensures { result ≡ is_for raised names.now }
{
    names.is_empty() || is_named(name_of(raised), names)
}

// Whether the name is one of these.
fn is_named(name: NameId, names: &[Word]) -> bool
    ensures { result ≡ list_any (λ v. v.name.0 == name.0) names.now }
{
    names.iter().any(|w| w.name.0 == name.0)
}

// The name of an exception.
fn name_of(raised: Raised) -> NameId
    ensures { result.0 ≡ raised_name raised }
{
    match raised {
        Raised::Constraint => NameId::CONSTRAINT_ERROR,
        Raised::Numeric => NameId::NUMERIC_ERROR,
        Raised::Program => NameId::PROGRAM_ERROR,
        Raised::Tasking => NameId::TASKING_ERROR,
        Raised::Storage => NameId::STORAGE_ERROR,
        Raised::End => NameId::END_ERROR,
        Raised::Other(id) => id,
    }
}

// Whether an exit leaves the loop of this name.
fn is_left(exit: Option<Word>, own: Option<Word>) -> bool
    ensures { result ≡ is_left exit own }
{
    match (exit, own) {
        (None, _) => true,
        (Some(_), None) => false,
        (Some(exit), Some(own)) => exit.name.0 == own.name.0,
    }
}
