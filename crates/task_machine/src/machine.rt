// The machine.

ghost use Rattle.std.specs.Prelude.{◌≡◌, ◌++◌, ◌∷◌, [], ◌<◌, ◌^◌, true, List, IfOk, OnOk, OnErr, filter, length};
ghost use Rattle.event_machine.specs.declared.Action.TheVariants.{End};
ghost use Rattle.event_machine.specs.declared.Event.{Event as SpecEvent};
ghost use Rattle.event_machine.specs.Applying.{actions_below};
ghost use Rattle.event_machine.specs.Tallies.{IsKilledIn};
ghost use Rattle.task_model.specs.TaskOps.{task_ops};
ghost use Rattle.task_model.specs.Machine.{ProgramWithInputs, after, enabled_of, event_of};
ghost use Rattle.task_machine.specs.Outputs.{IsQuietEnd, IsOutput};
ghost use Rattle.task_machine.specs.Table.{can, event_in, opening_in, output_of, applies_in, seen_in, whole};

use crate::Action;
use crate::applying::applies;
use crate::effects::{fail, finish, set_standing, step, take_delay, take_else};
use crate::listing::{list_tasks, push_if};
use crate::moving::{abort_next, arrive, leave_line, start};
use crate::seats::{Seat, offer_at};
use crate::starting::start_all;
use ada_tree::Memory;
use ada_value::{Inputs, Value};
use event_machine::{Event, Standing};
use std::alloc::Global;
use std::marker::Model;
use syn_event::Numbers;
use task_links::Links;
use task_local::Offer;
use thiserror::Error;

/// All tasks of a program as it runs. A contract sees the program's numbers, each task's state and standing by its number from 0, the callers in all
/// queues in order of arrival, and whether the program has ended.
#[derive(Drop)]
pub struct Machine<'p> {
    links: &'p Links<'p>,
    seats: Vec<Seat<'p>>,
    line: Vec<u32>,
    // through which the values of a rendezvous pass; what it holds between actions means nothing
    values: Vec<Value>,
    ended: bool,
}

impl<'p> Model for Machine<'p> {
    ghost use Rattle.std.specs.Prelude.{◌<◌, ◌^◌, vec_len};
    ghost use Rattle.std.specs.Coded.{codes};
    ghost use Rattle.ada_tree.proofs.Codes.{tree_codes};
    ghost use Rattle.task_links.specs.inner.SettingCode.{coded_setting};
    ghost use Rattle.task_model.specs.Machine.{MachineState};

    ghost Value = { MachineState };

    ghost coded = { Prim.hlevel (codes, tree_codes, coded_setting (Prim.hlevel (codes, tree_codes)) (Prim.hlevel (codes, tree_codes))) };

    ghost view = { λ m. record { numbers = m.links.now.numbers; state = record { seats = m.seats.items; line = m.line.items; ended = m.ended } } };

    ghost invariant = { λ m. vec_len m.seats < 2 ^ 32 };
}

/// Why a step was not made.
#[derive(Debug, Drop, Error)]
pub enum StepError {
    /// There was no memory; the machine is as it was.
    #[error("out of memory")]
    Memory,
}

impl<'p> Machine<'p> {
    /// The program before its first step: all tasks are live at their first statements.
    pub fn new(alloc: Global, links: &'p Links<'p>, inputs: &Inputs) -> Result<Machine<'p>, Memory>
        ensures { IfOk result (λ m. m ≡ opening_in links.now inputs.now) }
    {
        let seats = start_all(alloc, links, inputs)?;
        Ok(Machine {
            links,
            seats,
            line: Vec::new(alloc),
            values: Vec::new(alloc),
            ended: false,
        })
    }

    /// Makes of `out` the list of the actions that apply: by ascending tasks, for one task in the order of [`Action`], and the end of the program last.
    pub fn enabled(&self, out: &mut Vec<Action>) -> Result<(), Memory>
        ensures listed { OnOk result (out.new.items ≡ enabled_of self.now) }
        ensures few { OnOk result (length out.new.items < 2 ^ 32) }
        ensures emptied { OnErr result (out.new.items ≡ []) }
    {
        match list_enabled(
            &self.seats,
            &self.line,
            self.links.numbers(),
            self.ended,
            out,
        ) {
            Ok(()) => Ok(()),
            Err(e) => {
                out.clear();
                Err(e)
            }
        }
    }

    /// Whether the action applies.
    pub fn can_apply(&self, action: Action) -> bool
        ensures { result ≡ can self.now action }
    {
        !self.ended && applies(&self.seats, &self.line, self.links.numbers(), action)
    }

    /// Makes one action, which applies, and answers its event, if it has one.
    pub fn apply(&mut self, action: Action) -> Result<Option<Event>, StepError>
        requires { can self.old action ≡ true }
        ensures event { IfOk result (λ event. event ≡ event_of self.old action) }
        ensures after { OnOk result (self.new ≡ after self.old action) }
        ensures unchanged { OnErr result (self.new ≡ self.old) }
    {
        let event = event_at(&self.seats, action);
        match self.change(action) {
            Ok(()) => Ok(event),
            Err(_) => Err(StepError::Memory),
        }
    }

    /// Whether the program has ended.
    pub fn ended(&self) -> bool
        ensures { result ≡ self.now.state.ended }
    {
        self.ended
    }

    /// What the task of this number, from 0, has written; past the last task nothing.
    pub fn output(&self, task: u32) -> &[u8]
        ensures text { result.now ≡ output_of self.now task }
        // where the machine stands at the quiet end of a run with events by which the task is not killed: each such run gives this output
        ensures of_all { (setup : ProgramWithInputs) (events : List SpecEvent) → IsQuietEnd setup self.now.numbers events self.now.state → (IsKilledIn events task → ⊥)
            → IsOutput setup self.now.numbers events task result.now }
    {
        self.written_by(task)
    }
}

impl<'p> Machine<'p> {
    // What the task has written.
    fn written_by(&self, task: u32) -> &[u8]
        ensures { result.now ≡ output_of self.now task }
    {
        match self.seats.get(task as usize) {
            Some(seat) => seat.local.output(),
            None => &[],
        }
    }
}

// Makes of `out` the list of the actions that apply.
fn list_enabled(
    seats: &[Seat],
    line: &[u32],
    numbers: &Numbers,
    ended: bool,
    out: &mut Vec<Action>,
) -> Result<(), Memory>
    requires { length seats.now < 2 ^ 32 }
    ensures listed { OnOk result (out.new.items ≡ enabled_of (whole numbers.now seats.now line.now ended)) }
    ensures few { OnOk result (length out.new.items < 2 ^ 32) }
{
    out.clear();
    if ended {
        return Ok(());
    }
    list_all(seats, line, numbers, out)?;
    match u32::try_from(out.len()) {
        Ok(_) => Ok(()),
        Err(_) => Err(Memory),
    }
}

// All actions that apply, where the program has not ended.
fn list_all(
    seats: &[Seat],
    line: &[u32],
    numbers: &Numbers,
    out: &mut Vec<Action>,
) -> Result<(), Memory>
    requires { length seats.now < 2 ^ 32 }
    ensures { OnOk result (out.new.items ≡ out.old.items ++ filter (applies_in numbers.now seats.now line.now) (actions_below task_ops (seen_in seats.now line.now) (length seats.now) ++ End ∷ [])) }
{
    list_tasks(seats, line, numbers, out)?;
    push_if(seats, line, numbers, Action::End, out)?;
    Ok(())
}

// The event of an action.
fn event_at(seats: &[Seat], action: Action) -> Option<Event>
    ensures { result ≡ event_in seats.now action }
{
    match action {
        Action::Local { .. } | Action::Arrive { .. } => None,
        Action::Start { c } => match offer_at(seats, c) {
            Offer::Call { e, i, .. } => Some(Event::R { c, e, i }),
            _ => None,
        },
        Action::Finish { a } => Some(Event::E { a }),
        Action::Else { a } => Some(Event::S { a }),
        Action::Delay { a, k } => Some(Event::D { a, k }),
        Action::CallElse { c } => match offer_at(seats, c) {
            Offer::Call { e, i, .. } => Some(Event::C { c, e, i }),
            _ => None,
        },
        Action::Expire { c } => match offer_at(seats, c) {
            Offer::Call { e, i, .. } => Some(Event::T { c, e, i }),
            _ => None,
        },
        Action::Fail { c } => match offer_at(seats, c) {
            Offer::Call { e, i, .. } => Some(Event::F { c, e, i }),
            _ => None,
        },
        Action::Complete { a } => Some(Event::X { a }),
        Action::Abort { t } => match offer_at(seats, t) {
            Offer::Abort { x } => Some(Event::B { t, x }),
            _ => None,
        },
        Action::End => Some(Event::Z),
    }
}

impl Machine<'_> {
    // Makes the change of an action, which applies.
    fn change(&mut self, action: Action) -> Result<(), Memory>
        requires { can self.old action ≡ true }
        ensures after { OnOk result (self.new ≡ after self.old action) }
        ensures unchanged { OnErr result (self.new ≡ self.old) }
    {
        let numbers = self.links.numbers();
        match action {
            Action::Local { t } => step(&mut self.seats, t),
            Action::Arrive { t } => arrive(&mut self.seats, &mut self.line, t),
            Action::Start { c } => {
                start(
                    &mut self.seats,
                    &mut self.line,
                    &mut self.values,
                    numbers,
                    c,
                )
            }
            Action::Finish { a } => finish(&mut self.seats, &mut self.values, numbers, a),
            Action::Else { a } | Action::CallElse { c: a } => take_else(&mut self.seats, a),
            Action::Delay { a, k } => take_delay(&mut self.seats, a, k),
            Action::Expire { c } => {
                take_delay(&mut self.seats, c, 1)?;
                leave_line(&mut self.line, c);
                Ok(())
            }
            Action::Fail { c } => {
                fail(&mut self.seats, c);
                leave_line(&mut self.line, c);
                Ok(())
            }
            Action::Complete { a } => {
                set_standing(&mut self.seats, a, Standing::Completed);
                Ok(())
            }
            Action::Abort { t } => {
                abort_next(&mut self.seats, &mut self.line, numbers, t);
                Ok(())
            }
            Action::End => {
                self.ended = true;
                Ok(())
            }
        }
    }
}
