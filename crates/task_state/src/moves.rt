// The ways in which a task goes on.

ghost use Rattle.std.specs.Prelude.{◌≡◌, drop, map, option_map, slice_get, true, IfOk, IsOk, OnOk, OnErr};
ghost use Rattle.ada_tree.specs.PlainStmt.{plain_part, seen};
ghost use Rattle.ada_value.specs.declared.values.Value.TheVariants.{Number};
ghost use Rattle.ada_value.specs.Variables.{set_value};
ghost use Rattle.ada_value.specs.put_text.Written.{exception_of, written_with};
ghost use Rattle.task_state.specs.frames.Seen.{seen_handlers, turns_as};
ghost use Rattle.task_model.specs.Frames.{Block, Loop, handled_by};
ghost use Rattle.task_model.specs.Rendezvous.{behind_of};
ghost use Rattle.task_model.specs.Steps.{exited};
ghost use Rattle.task_model.specs.Tasks.{entered, gone_to, pushed, raised_there, vars_of, with_input, with_text, with_vars};
ghost use Rattle.task_state.specs.Plain.{plain_task, text_in, BeginsTurn, LeavesLoop};

use crate::TaskState;
use crate::frames::Turns;
use ada_tree::{Handler, Memory, NameId, Part, Stmt, Word};
use ada_value::put_text::put_parts;
use ada_value::{Raised, Value};
use task_links::TaskScope;

impl<'p> TaskState<'p> {
    /// Goes on behind the next statement; blocks and handlers of blocks that are over are left.
    pub fn go_on(&mut self)
        ensures { plain_task self.new ≡ gone_to (behind_of (plain_task self.old)) (plain_task self.old) }
    {
        self.frames.go_on();
    }

    /// Raises an exception where the task stands (11.4.1). It takes no memory.
    pub fn raise(&mut self, raised: Raised)
        ensures { plain_task self.new ≡ raised_there raised (plain_task self.old) }
    {
        let gone = self.frames.raise(raised);
        self.objects.leave(gone);
    }

    /// The exception that is being handled, which `raise;` raises again (11.3).
    pub fn handled(&self) -> Raised
        ensures { result ≡ handled_by (plain_task self.now).control }
    {
        self.frames.handled()
    }

    /// Makes an exit, out of the innermost loop or the one of that name (5.7).
    pub fn exit(&mut self, name: Option<Word>)
        ensures { plain_task self.new ≡ exited name (plain_task self.old) }
    {
        let gone = self.frames.exit(name);
        self.objects.leave(gone);
    }

    /// Enters a branch of the next statement. It fails by want of memory alone.
    pub fn enter(&mut self, branch: &'p [Stmt]) -> Result<(), Memory>
        ensures ok { OnOk result (plain_task self.new ≡ entered (seen branch.now) (behind_of (plain_task self.old)) (plain_task self.old)) }
        ensures reserved { self.old.frames.reserved ≡ true → IsOk result }
        ensures err { OnErr result (plain_task self.new ≡ plain_task self.old) }
    {
        self.frames.enter(branch)
    }

    /// Enters the block that is the next statement (5.6). It fails by want of memory alone.
    pub fn enter_block(&mut self, stmts: &'p [Stmt], handlers: &'p [Handler]) -> Result<(), Memory>
        ensures ok { OnOk result (plain_task self.new ≡ pushed (seen stmts.now) (Block (seen_handlers handlers.now)) (vars_of (plain_task self.old)) (behind_of (plain_task self.old)) (plain_task self.old)) }
        ensures reserved { self.old.frames.reserved ≡ true → IsOk result }
        ensures err { OnErr result (plain_task self.new ≡ plain_task self.old) }
    {
        self.frames.enter_block(stmts, handlers)
    }

    /// Enters the first turn of the loop without parameter that is the next statement (5.5). It fails by want of memory alone.
    pub fn enter_loop(
        &mut self,
        name: Option<Word>,
        turns: Turns<'p>,
        stmts: &'p [Stmt],
    ) -> Result<(), Memory>
        ensures ok { OnOk result (plain_task self.new ≡ pushed (seen stmts.now) (Loop name (turns_as turns.entry) (seen stmts.now)) (vars_of (plain_task self.old)) (behind_of (plain_task self.old)) (plain_task self.old)) }
        ensures reserved { self.old.frames.reserved ≡ true → IsOk result }
        ensures err { OnErr result (plain_task self.new ≡ plain_task self.old) }
    {
        self.frames.enter_loop(name, turns, stmts)
    }

    /// Begins the next turn of the loop at the end of whose statements the task stands (5.5).
    pub fn begin_turn(&mut self)
        ensures { BeginsTurn (plain_task self.old) (plain_task self.new) }
    {
        self.frames.begin_turn();
    }

    /// Leaves the loop at the end of whose statements the task stands; its parameter goes (5.5).
    pub fn leave_loop(&mut self)
        ensures { LeavesLoop (plain_task self.old) (plain_task self.new) }
    {
        let gone = self.frames.leave_loop();
        self.objects.leave(gone);
    }

    /// Writes a value at a place of the latest variable of a name, from 0; where there is none nothing changes (5.2).
    pub fn set(&mut self, name: NameId, place: usize, value: Value)
        ensures { plain_task self.new ≡ with_vars (plain_task self.old) (set_value (vars_of (plain_task self.old)) name place value) }
    {
        self.objects.set(name, place, value);
    }

    /// Takes the next integer of the input, as a value; at its end there is none (14.3).
    pub fn read(&mut self) -> Option<Value>
        ensures value { result ≡ option_map Number (slice_get (plain_task self.old).input 0) }
        ensures task { plain_task self.new ≡ with_input (plain_task self.old) (drop 1 (plain_task self.old).input) }
    {
        if self.next < self.input.len() {
            let number = self.input[self.next];
            self.next += 1;
            Some(Value::Number(number))
        } else {
            None
        }
    }

    /// Writes the text of the parts of a PUT with a closing behind it, or answers the exception that a part raises, and then writes
    /// nothing (14.3). It fails by want of memory alone.
    pub fn write(&mut self, parts: &[Part], closing: &[u8]) -> Result<Option<Raised>, Memory>
        ensures raised { IfOk result (λ raised. raised ≡ exception_of (text_in (plain_task self.old) (map plain_part parts.now))) }
        ensures ok { OnOk result (plain_task self.new ≡ with_text (plain_task self.old) (written_with closing.now (text_in (plain_task self.old) (map plain_part parts.now)))) }
        ensures err { OnErr result (plain_task self.new ≡ plain_task self.old) }
    {
        let scope = TaskScope {
            objects: &self.objects,
            names: self.links.types(),
        };
        let names = &self.links.program().names;
        let result = put_parts(names, &scope, parts, closing, &mut self.output);
        let TaskScope {
            objects: _objects,
            names: _names,
        } = scope;
        result
    }
}
