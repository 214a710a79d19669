// Loop parameters, which are the latest variables of their loops (5.5).

ghost use Rattle.std.specs.Prelude.{◌≡◌, ◌∷◌, pos, OnOk, OnErr};
ghost use Rattle.ada_tree.specs.PlainStmt.{seen};
ghost use Rattle.ada_value.specs.Values.{position_of};
ghost use Rattle.task_state.specs.frames.Seen.{turns_as};
ghost use Rattle.task_model.specs.Frames.{Loop};
ghost use Rattle.task_model.specs.Rendezvous.{behind_of};
ghost use Rattle.task_model.specs.Steps.{counted_on, counted_so_far, loop_parameter};
ghost use Rattle.task_model.specs.Tasks.{pushed, vars_of, with_vars};
ghost use Rattle.task_state.specs.Plain.{plain_task, counted_from};

use crate::TaskState;
use crate::frames::Turns;
use ada_tree::{Memory, Stmt, Word};
use ada_value::{Form, Value, position_of, value_at};

// The position one on, or one back.
fn counted_from(value: Value, backwards: bool) -> i64
    ensures { result ≡ counted_from backwards value }
{
    let step = if backwards { -1 } else { 1 };
    match value {
        Value::Number(number) => number as i64 + step,
        Value::Truth(true) => 1 + step,
        Value::Truth(false) => step,
        Value::Place { pos: place, .. } => place as i64 + step,
    }
}

impl<'p> TaskState<'p> {
    // One variable more, the parameter of a loop at a position.
    fn push_parameter(&mut self, word: Word, kind: u32, first: i64) -> Result<(), Memory>
        ensures ok { OnOk result (plain_task self.new ≡ with_vars (plain_task self.old) (loop_parameter (plain_task self.old) word kind first ∷ vars_of (plain_task self.old))) }
        ensures frames { self.new.frames ≡ self.old.frames }
        ensures err { OnErr result (plain_task self.new ≡ plain_task self.old) }
    {
        let form = Form {
            limits: self.links.limits_of_kind(kind),
            index: None,
        };
        let value = value_at(self.links.types().types(), kind, first);
        self.objects.push(word.name, form, &[value])
    }

    /// Enters the first turn of the counting loop that is the next statement, with its parameter at a position (5.5). It fails by want of
    /// memory alone.
    pub fn enter_counting(
        &mut self,
        name: Option<Word>,
        word: Word,
        kind: u32,
        first: i64,
        turns: Turns<'p>,
        stmts: &'p [Stmt],
    ) -> Result<(), Memory>
        ensures ok { OnOk result (plain_task self.new ≡ pushed (seen stmts.now) (Loop name (turns_as turns.entry) (seen stmts.now)) (loop_parameter (plain_task self.old) word kind first ∷ vars_of (plain_task self.old)) (behind_of (plain_task self.old)) (plain_task self.old)) }
        ensures err { OnErr result (plain_task self.new ≡ plain_task self.old) }
    {
        self.push_parameter(word, kind, first)?;
        match self.frames.enter_loop(name, turns, stmts) {
            Ok(()) => Ok(()),
            Err(_) => {
                self.objects.forget();
                Err(Memory)
            }
        }
    }

    /// The position of the latest variable, which is the loop parameter at the end of a counting loop's statements; without any it is 0.
    pub fn counted(&self) -> i64
        ensures { result ≡ counted_so_far (vars_of (plain_task self.now)) }
    {
        match self.objects.at(0) {
            Some(variable) => position_of(variable.value(0)),
            None => 0,
        }
    }

    /// Counts the loop parameter on, or backwards. It takes no memory: only where the latest variable has not one value, as no loop parameter
    /// has, the answer is want of memory.
    pub fn count_on(&mut self, backwards: bool) -> Result<(), Memory>
        ensures ok { OnOk result (plain_task self.new ≡ with_vars (plain_task self.old) (counted_on (plain_task self.old) backwards (vars_of (plain_task self.old)))) }
        ensures err { OnErr result (plain_task self.new ≡ plain_task self.old) }
    {
        match self.objects.at(0) {
            Some(variable) => {
                if variable.values.len() != 1 {
                    return Err(Memory);
                }
                let next = counted_from(variable.value(0), backwards);
                let value = value_at(self.links.types().types(), variable.form.limits.kind, next);
                self.objects.set_latest(value);
                Ok(())
            }
            None => Ok(()),
        }
    }
}
