// The frames of one task.

ghost use Rattle.std.specs.Prelude.{◌≡◌, ◌+◌, [], true, Some, None, IsOk, OnOk, OnErr, slice_get};
ghost use Rattle.ada_tree.specs.PlainStmt.{seen};
ghost use Rattle.task_model.specs.Frames.{OwnBody, Block, Loop, handled_by, callers_in};
ghost use Rattle.task_state.specs.frames.Stack.{control_on};
ghost use Rattle.task_state.specs.frames.Moves.{GoesOn, Enters, IsPushed, Opens, Closes, Raises, Exits, BeginsTurn, LeavesLoop};

use crate::frames::coming::{Next, end_of};
use crate::frames::frame::{Frame, Place, Turns};
use crate::frames::landing::{caller_among, exit, handled_among, push, raise, raise_if, settle};
use ada_tree::{Handler, Memory, Stmt, Word};
use ada_value::Raised;
use std::alloc::Global;
use std::marker::Model;
use task_model::FormalParameter;

/// How many variables go as an accept body is closed: its formals, and then the parameters of the loops that an exception leaves.
#[derive(Clone, Copy)]
pub struct Left {
    pub formals: usize,
    pub parameters: usize,
}

/// The frames of one task: the statements that are left in the innermost, what it stands in, and the frames around it. A contract
/// sees the frames of the definitions, and whether there is room for one more.
#[derive(Drop)]
pub struct Frames<'p> {
    top: Frame<'p>,
    outer: Vec<Frame<'p>>,
}

impl<'p> Model for Frames<'p> {
    ghost use Rattle.std.specs.Prelude.{reverse, nat_lt};
    ghost use Rattle.std.specs.Vec.{vec_len, vec_capacity};
    ghost use Rattle.std.specs.Coded.{codes};
    ghost use Rattle.ada_tree.proofs.Codes.{tree_codes};
    ghost use Rattle.task_state.specs.frames.Stack.{Held};

    ghost Value = { Held };

    ghost coded = { Prim.hlevel (codes, tree_codes) };

    ghost use Rattle.task_state.specs.frames.Seen.{stack_of, IsAtStatement, IsGrounded};

    ghost view = { λ a. record { stack = stack_of a.top (reverse a.outer.items); reserved = nat_lt (vec_len a.outer) (vec_capacity a.outer) } };

    ghost invariant = { λ a. (IsAtStatement a.top.rest.now a.top.place) × (IsGrounded a.top.place (reverse a.outer.items)) };
}

impl<'p> Frames<'p> {
    ghost use Rattle.task_state.specs.frames.Seen.{seen_handlers, turns_as};
    ghost use Rattle.task_state.specs.frames.Coming.{IsNext};

    /// The frames of a unit before its first statement, with its handlers. It takes no memory.
    pub fn new(alloc: Global, stmts: &'p [Stmt], handlers: &'p [Handler]) -> Frames<'p>
        ensures { result.stack ≡ record { top = record { rest = seen stmts.now; place = OwnBody (seen_handlers handlers.now) None }; outer = [] } }
    {
        Frames {
            top: Frame {
                rest: stmts,
                place: Place::OwnBody {
                    handlers,
                    taken: None,
                },
            },
            outer: Vec::new(alloc),
        }
    }

    /// What comes next.
    pub fn next(&self) -> Next<'p>
        ensures { IsNext result self.now.stack.top.rest self.now.stack.top.place }
    {
        match self.top.rest.first() {
            Some(stmt) => Next::Stmt(stmt),
            None => end_of(self.top.place),
        }
    }

    /// The exception that is being handled, which `raise;` raises again, also across accept bodies; where none is, as in no
    /// legal program, PROGRAM_ERROR (11.3).
    pub fn handled(&self) -> Raised
        ensures { result ≡ handled_by (control_on self.now.stack []) }
    {
        match self.top.handled() {
            Some(raised) => raised,
            None => handled_among(&self.outer).unwrap_or(Raised::Program),
        }
    }

    /// The caller of the innermost opened accept body, if one is open (9.5).
    pub fn caller(&self) -> Option<u32>
        ensures { result ≡ slice_get (callers_in (control_on self.now.stack [])) 0 }
    {
        match self.top.caller() {
            Some(caller) => Some(caller),
            None => caller_among(&self.outer),
        }
    }

    /// Makes room for one more frame, so that the next entering of a branch, a block or a loop takes no memory.
    pub fn reserve(&mut self) -> Result<(), Memory>
        ensures ok { OnOk result (self.new ≡ record { stack = self.old.stack; reserved = true }) }
        ensures err { OnErr result (self.new ≡ self.old) }
    {
        self.outer.reserve(1)?;
        Ok(())
    }

    /// Goes on behind the next statement; blocks and handlers of blocks that are over are left.
    pub fn go_on(&mut self)
        ensures { GoesOn self.old.stack self.new.stack }
    {
        self.top = settle(self.top.passed(), &mut self.outer);
    }

    /// Enters a branch of the next statement. It fails by want of memory alone.
    pub fn enter(&mut self, branch: &'p [Stmt]) -> Result<(), Memory>
        ensures ok { OnOk result (Enters (seen branch.now) self.old.stack self.new.stack) }
        ensures reserved { self.old.reserved ≡ true → IsOk result }
        ensures err { OnErr result (self.new ≡ self.old) }
    {
        let piece = Frame {
            rest: branch,
            place: Place::Inside,
        };
        self.top = push(piece, self.top, &mut self.outer)?;
        Ok(())
    }

    /// Enters the block that is the next statement (5.6). It fails by want of memory alone.
    pub fn enter_block(&mut self, stmts: &'p [Stmt], handlers: &'p [Handler]) -> Result<(), Memory>
        ensures ok { OnOk result (IsPushed (seen stmts.now) (Block (seen_handlers handlers.now)) self.old.stack self.new.stack) }
        ensures reserved { self.old.reserved ≡ true → IsOk result }
        ensures err { OnErr result (self.new ≡ self.old) }
    {
        let block = Frame {
            rest: stmts,
            place: Place::Block { handlers },
        };
        self.top = push(block, self.top, &mut self.outer)?;
        Ok(())
    }

    /// Enters the first turn of the loop that is the next statement (5.5). It fails by want of memory alone.
    pub fn enter_loop(
        &mut self,
        name: Option<Word>,
        turns: Turns<'p>,
        stmts: &'p [Stmt],
    ) -> Result<(), Memory>
        ensures ok { OnOk result (IsPushed (seen stmts.now) (Loop name (turns_as turns.entry) (seen stmts.now)) self.old.stack self.new.stack) }
        ensures reserved { self.old.reserved ≡ true → IsOk result }
        ensures err { OnErr result (self.new ≡ self.old) }
    {
        let turn = Frame {
            rest: stmts,
            place: Place::Loop { name, turns, stmts },
        };
        self.top = push(turn, self.top, &mut self.outer)?;
        Ok(())
    }

    /// Begins the next turn of the loop at the end of whose statements the task stands (5.5).
    pub fn begin_turn(&mut self)
        ensures { BeginsTurn self.old.stack self.new.stack }
    {
        if let Place::Loop { stmts, .. } = self.top.place {
            self.top.rest = stmts;
        }
    }

    /// Leaves the loop at the end of whose statements the task stands, and answers how many variables go with it: the loop
    /// parameter, where it counts (5.5).
    pub fn leave_loop(&mut self) -> usize
        ensures { LeavesLoop result self.old.stack self.new.stack }
    {
        if let Place::Loop { turns, .. } = self.top.place {
            if let Some(below) = self.outer.pop() {
                self.top = settle(below, &mut self.outer);
                return turns.brought();
            }
        }
        0
    }

    /// Makes an exit, out of the innermost loop or the one of that name, and answers how many variables go (5.7).
    pub fn exit(&mut self, name: Option<Word>) -> usize
        ensures { Exits name result self.old.stack self.new.stack }
    {
        let landing = exit(name, self.top, &mut self.outer);
        self.top = settle(landing.frame, &mut self.outer);
        landing.gone
    }

    /// Raises an exception where the task stands, and answers how many variables go (11.4.1, 11.5). It takes no memory.
    pub fn raise(&mut self, raised: Raised) -> usize
        ensures { Raises raised result self.old.stack self.new.stack }
    {
        let landing = raise(raised, self.top, &mut self.outer);
        self.top = settle(landing.frame, &mut self.outer);
        landing.gone
    }

    /// Opens the body of an accept for a caller: behind it stand the statements behind the accept, and then those behind the next
    /// statement (9.5). It fails by want of memory alone.
    pub fn open(
        &mut self,
        caller: u32,
        formals: &'p [FormalParameter],
        body: &'p [Stmt],
        behind: &'p [Stmt],
    ) -> Result<(), Memory>
        ensures ok { OnOk result (Opens caller formals.now (seen body.now) (seen behind.now) self.old.stack self.new.stack) }
        ensures err { OnErr result (self.new ≡ self.old) }
    {
        self.outer.reserve(2)?;
        self.outer.push_reserved(self.top.passed());
        self.outer.push_reserved(Frame {
            rest: behind,
            place: Place::Inside,
        });
        self.top = Frame {
            rest: body,
            place: Place::Opened {
                caller,
                formals,
                pending: None,
            },
        };
        Ok(())
    }

    /// Closes the accept body at whose end the task stands; a pending exception is raised behind the accept (9.5, 11.5). Answers how
    /// many variables go.
    pub fn close(&mut self) -> Left
        ensures { Closes (result.formals + result.parameters) self.old.stack self.new.stack }
    {
        if let Place::Opened {
            formals,
            pending,
            ..
        } = self.top.place
        {
            if let Some(below) = self.outer.pop() {
                let landing = raise_if(pending, below, &mut self.outer);
                self.top = settle(landing.frame, &mut self.outer);
                return Left {
                    formals: formals.len(),
                    parameters: landing.gone,
                };
            }
        }
        Left {
            formals: 0,
            parameters: 0,
        }
    }
}
