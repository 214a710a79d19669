// A task with what is kept beside it, and what each action makes of them.

ghost use Rattle.std.specs.Prelude.{◌≡◌, map, true, IfOk, OnOk, OnErr};
ghost use Rattle.ada_tree.specs.PlainStmt.{plain_callee, plain_stmt};
ghost use Rattle.task_model.specs.Rendezvous.{past_name};
ghost use Rattle.task_model.specs.Stands.{can_step, offer_of, stepped};
ghost use Rattle.task_model.specs.Tasks.{raised_there, rest_of};
ghost use Rattle.task_state.specs.Plain.{plain_task};
ghost use Rattle.task_local.specs.inner.Local.{names_at, names_in};
ghost use Rattle.task_local.specs.inner.InOrder.{task_of, IsInOrder, IsRoomy};
ghost use Rattle.task_local.specs.OfferView.{offer_as};

use crate::standing::{stand_at_name, stand_here};
use crate::{Choice, Offer};
use ada_tree::{Callee, Memory, Stmt, StmtKind};
use ada_value::Raised;
use task_state::TaskState;
use task_state::frames::Next;
use task_steps::step_statement;
use task_waits::Stand;

/// A task, with how many names of its next statement were passed, the room that its widest wait takes, and what it stands at. The choices
/// of the wait at which it stands are in a list that has this room.
#[derive(Drop)]
pub(crate) struct TaskParts<'p> {
    pub(crate) state: TaskState<'p>,
    pub(crate) passed: usize,
    pub(crate) widest: usize,
    pub(crate) stand: Stand,
    pub(crate) choices: Vec<Choice>,
}

// The names of a statement that are passed one by one.
fn names_at<'p>(stmt: &'p Stmt) -> &'p [Callee]
    ensures { map plain_callee result.now ≡ names_at (plain_stmt stmt.now) }
{
    match &stmt.kind {
        StmtKind::Abort { names } => names,
        _ => &[],
    }
}

// Those of the next statement of a task.
fn names_in<'p>(state: &TaskState<'p>) -> &'p [Callee]
    ensures { map plain_callee result.now ≡ names_in (rest_of (plain_task state.now)) }
{
    match state.frames.next() {
        Next::Stmt(stmt) => names_at(stmt),
        Next::Turn(_) => &[],
        Next::EndOfBody { .. } => &[],
        Next::EndOfUnit => &[],
    }
}

impl<'p> TaskParts<'p> {
    /// Looks anew at what the task stands at, which has gone on and is behind no name.
    pub(crate) fn renew(&mut self)
        requires { IsRoomy self.old (plain_task self.old.state) }
        ensures task { task_of self.new ≡ plain_task self.old.state }
        ensures in_order { IsInOrder self.new }
    {
        self.passed = 0;
        self.stand = stand_here(&self.state, &mut self.choices);
    }

    /// Makes one local step, if the task has one.
    pub(crate) fn step(&mut self) -> Result<bool, Memory>
        requires { IsInOrder self.old }
        ensures made { IfOk result (λ made. made ≡ can_step (task_of self.old)) }
        ensures ok { OnOk result (task_of self.new ≡ stepped (task_of self.old)) }
        ensures err { OnErr result (task_of self.new ≡ task_of self.old) }
        ensures in_order { IsInOrder self.new }
    {
        match self.stand {
            Stand::Step => {
                step_statement(&mut self.state)?;
                self.renew();
                Ok(true)
            }
            Stand::Raises(raised) => {
                self.state.raise(raised);
                self.renew();
                Ok(true)
            }
            Stand::Call { .. } => Ok(false),
            Stand::Wait => Ok(false),
            Stand::Finish => Ok(false),
            Stand::End => Ok(false),
            Stand::Abort { .. } => Ok(false),
        }
    }

    /// What the task offers.
    pub(crate) fn offer<'a>(&'a self) -> Offer<'a>
        requires { IsInOrder self.now }
        ensures { offer_as result ≡ offer_of (task_of self.now) }
    {
        match self.stand {
            Stand::Step => Offer::None,
            Stand::Raises(_) => Offer::None,
            Stand::Call { form, entry, index } => Offer::Call {
                form,
                e: entry,
                i: index,
            },
            Stand::Wait => Offer::Wait(&self.choices),
            Stand::Finish => Offer::Finish,
            Stand::End => Offer::End,
            Stand::Abort { task } => Offer::Abort { x: task },
        }
    }

    /// Raises an exception where the task stands. It takes no memory.
    pub(crate) fn raise(&mut self, raised: Raised)
        requires { IsInOrder self.old }
        ensures task { task_of self.new ≡ raised_there raised (task_of self.old) }
        ensures in_order { IsInOrder self.new }
    {
        self.state.raise(raised);
        self.renew();
    }

    /// Passes the next name of the abort statement at which the task stands; at another one nothing changes. It takes no memory.
    pub(crate) fn pass_name(&mut self)
        requires { IsInOrder self.old }
        ensures task { task_of self.new ≡ past_name (task_of self.old) }
        ensures in_order { IsInOrder self.new }
    {
        let names = names_in(&self.state);
        if names.is_empty() {
            return;
        }
        if self.passed + 1 < names.len() {
            self.passed += 1;
            self.stand = stand_at_name(&self.state, &names[self.passed]);
        } else {
            self.state.go_on();
            self.renew();
        }
    }

    /// Makes room for one more frame.
    pub(crate) fn reserve(&mut self) -> Result<(), Memory>
        requires { IsInOrder self.old }
        ensures task { task_of self.new ≡ task_of self.old }
        ensures ok { OnOk result (self.new.state.frames.reserved ≡ true) }
        ensures err { OnErr result (self.new.state.frames.reserved ≡ self.old.state.frames.reserved) }
        ensures in_order { IsInOrder self.new }
    {
        self.state.frames.reserve()
    }
}
