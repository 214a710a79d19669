// The run loop.

ghost use Rattle.std.specs.Prelude.{◌≡◌, IfOk, IfErr, OnOk, OnErr, IsErrOf, option_to_list, None, length, slice_index_or, ◌<◌, ◌^◌, ◌%◌, true};
ghost use Rattle.event_machine.specs.declared.Action.TheVariants.{End};
ghost use Rattle.ded_io.specs.Counts.{Rose, HasCause};
ghost use Rattle.ded_io.specs.Written.{Wrote, appended};
ghost use Rattle.interp.specs.CutOff.{IsCutOff};
ghost use Rattle.interp.specs.inner.Chosen.{IsChosen, IsBroken};
ghost use Rattle.interp.specs.inner.Listed.{IsListed, IsListedFor, steps_again};
ghost use Rattle.task_model.specs.picked_runs.Lines.{event_line, lines_of};
ghost use Rattle.task_model.specs.picked_runs.Picked.{picked, run_end, halted};
ghost use Rattle.task_model.specs.Machine.{after, event_of, enabled_of};
ghost use Rattle.task_machine.specs.Table.{can};

use crate::RunError;
use crate::gathering::Line;
use ada_tree::Memory;
use ded_io::{Chooser, Sink, SinkError};
use event_machine::{Action, Event};
use std::alloc::Global;
use syn_event::{Numbers, back, show};
use task_machine::Machine;
use task_model::picked_runs::{RunEnd, RunReport};

// Writes the line of an event, in one write.
#[tactic(auto, using(crate::proofs::WholeLine::line_gathered))]
fn put_line<K: Sink>(event: &Event, numbers: &Numbers, out: &mut K) -> Result<(), SinkError>
    ensures bytes { Wrote result (K.told out.old) (K.told out.new) (event_line numbers.now event.now) }
    ensures cause { HasCause (K.faults out.old) (K.faults out.new) result }
{
    let mut line = Line::new();
    match put_parts(event, numbers, &mut line) {
        Ok(()) => out.put(line.bytes()),
        Err(_) => put_parts(event, numbers, out),
    }
}

// Writes the parts of the line of an event one after the other.
#[tactic(auto, using(ded_io::proofs::Writes::writes))]
fn put_parts<K: Sink>(event: &Event, numbers: &Numbers, out: &mut K) -> Result<(), SinkError>
    ensures bytes { Wrote result (K.told out.old) (K.told out.new) (event_line numbers.now event.now) }
    ensures cause { HasCause (K.faults out.old) (K.faults out.new) result }
{
    match back(event, numbers) {
        Some(original) => {
            show(&original, out)?;
            out.put(b"\n")
        }
        None => {
            out.put(b"- ")?;
            show(event, out)?;
            out.put(b"\n")
        }
    }
}

// Writes the line of an event, where there is one.
#[tactic(auto, using(ded_io::proofs::Writes::writes))]
fn put_event<K: Sink>(event: Option<Event>, numbers: &Numbers, out: &mut K) -> Result<(), SinkError>
    ensures bytes { Wrote result (K.told out.old) (K.told out.new) (lines_of numbers.now (option_to_list event)) }
    ensures cause { HasCause (K.faults out.old) (K.faults out.new) result }
{
    match event {
        Some(event) => put_line(&event, numbers, out),
        None => Ok(()),
    }
}

// What a turn is to do: nothing, since the run has ended by itself, or an action.
enum Turn {
    Halted(RunEnd),
    Make(Action),
}

// How the run ends here by itself, if it does; `actions` becomes the list of the actions that apply where it does not. A list that is kept is that already.
fn standing(m: &Machine, is_kept: bool, actions: &mut Vec<Action>) -> Result<Option<RunEnd>, Memory>
    requires { is_kept ≡ true → IsListed m.now actions.old.items }
    ensures halted { IfOk result (λ end. end ≡ halted m.now) }
    ensures listed { IfOk result (λ end. end ≡ None → actions.new.items ≡ enabled_of m.now) }
    ensures some { IfOk result (λ end. end ≡ None → 0 < length actions.new.items) }
    ensures few { IfOk result (λ end. end ≡ None → length actions.new.items < 2 ^ 32) }
{
    if is_kept {
        return Ok(None);
    }
    if m.ended() {
        return Ok(Some(RunEnd::Ended));
    }
    m.enabled(actions)?;
    if actions.is_empty() {
        Ok(Some(RunEnd::Stuck))
    } else {
        Ok(None)
    }
}

// What the next choice picks, from a list that is kept or asked for.
fn choose<C: Chooser>(
    m: &Machine,
    choices: &mut C,
    is_kept: bool,
    actions: &mut Vec<Action>,
) -> Result<Turn, Memory>
    requires { is_kept ≡ true → IsListed m.now actions.old.items }
    ensures chosen { IfOk result (IsChosen C.word C.next m.now choices.old choices.new) }
    ensures listed { IfOk result (IsListedFor m.now actions.new.items) }
    ensures unchanged { OnErr result (choices.new ≡ choices.old) }
{
    match standing(m, is_kept, actions)? {
        Some(end) => Ok(Turn::Halted(end)),
        None => Ok(Turn::Make(pick_of(actions, choices))),
    }
}

// The action at the place that the next choice names.
fn pick_of<C: Chooser>(actions: &[Action], choices: &mut C) -> Action
    requires some { 0 < length actions.now }
    requires few { length actions.now < 2 ^ 32 }
    ensures action { result ≡ slice_index_or actions.now (C.word choices.old % length actions.now) End }
    ensures after { choices.new ≡ C.next choices.old }
{
    let place = choices.pick(actions.len() as u32);
    actions[place as usize]
}

// The action was a local step of a task that has another one: the actions that apply are the same as before it.
fn steps_again(m: &Machine, action: Action) -> bool
    ensures { result ≡ steps_again m.now action }
{
    match action {
        Action::Local { t } => m.can_apply(Action::Local { t }),
        _ => false,
    }
}

// Makes an action, which applies, and writes the line of its event.
fn make<K: Sink>(
    m: &mut Machine,
    action: Action,
    numbers: &Numbers,
    out: &mut K,
) -> Result<(), RunError>
    requires { can m.old action ≡ true }
    ensures machine { OnOk result (m.new ≡ after m.old action) }
    ensures lines { OnOk result (K.told out.new ≡ appended (K.told out.old) (lines_of numbers.now (option_to_list (event_of m.old action)))) }
    ensures cut { IfErr result (IsBroken numbers.now m.old action m.new (K.told out.old) (K.told out.new) (K.faults out.old) (K.faults out.new)) }
    ensures no_fault { OnOk result (K.faults out.new ≡ K.faults out.old) }
    ensures cause { IsErrOf result RunError.Sink → Rose (K.faults out.old) (K.faults out.new) }
{
    let event = match m.apply(action) {
        Ok(event) => event,
        Err(_) => return Err(RunError::Memory),
    };
    match put_event(event, numbers, out) {
        Ok(()) => Ok(()),
        Err(_) => Err(RunError::Sink),
    }
}

/// Runs the machine for at most `turns` actions. Each turn makes the action, among those that apply in their order, at the place that the next
/// choice names, and writes the line of its event, if it has one. After an error the machine stands behind the actions that were made.
pub fn run<C: Chooser, K: Sink>(
    alloc: Global,
    m: &mut Machine,
    numbers: &Numbers,
    choices: &mut C,
    turns: u64,
    out: &mut K,
) -> Result<RunReport, RunError>
    ensures machine { OnOk result (m.new ≡ (picked C.word C.next turns m.old choices.old).machine) }
    ensures chooser { OnOk result (choices.new ≡ (picked C.word C.next turns m.old choices.old).chooser) }
    ensures made { IfOk result (λ report. report.made ≡ (picked C.word C.next turns m.old choices.old).made) }
    ensures end { IfOk result (λ report. report.end ≡ run_end (picked C.word C.next turns m.old choices.old)) }
    ensures lines { OnOk result (K.told out.new ≡ appended (K.told out.old) (lines_of numbers.now (picked C.word C.next turns m.old choices.old).events)) }
    ensures no_fault { OnOk result (K.faults out.new ≡ K.faults out.old) }

    // An error leaves the machine behind the actions that were made, and their lines: without memory all of them and no fault, else all but
    // the last, and a front of that.
    ensures cut_off { IfErr result (IsCutOff C.word C.next turns numbers.now m.old choices.old m.new (K.told out.old) (K.told out.new) (K.faults out.old) (K.faults out.new)) }
    ensures cause { IsErrOf result RunError.Sink → Rose (K.faults out.old) (K.faults out.new) }
{
    let mut actions = Vec::new(alloc);
    let mut is_kept = false;
    for turn in 0..turns {
        match choose(m, choices, is_kept, &mut actions) {
            Ok(Turn::Halted(end)) => return Ok(RunReport { end, made: turn }),
            Ok(Turn::Make(action)) => match make(m, action, numbers, out) {
                Ok(()) => is_kept = steps_again(m, action),
                Err(e) => return Err(e),
            },
            Err(_) => return Err(RunError::Memory),
        }
    }
    match standing(m, is_kept, &mut actions) {
        Ok(Some(end)) => Ok(RunReport { end, made: turns }),
        Ok(None) => Ok(RunReport {
            end: RunEnd::Turns,
            made: turns,
        }),
        Err(_) => Err(RunError::Memory),
    }
}
