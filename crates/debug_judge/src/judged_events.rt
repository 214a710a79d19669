//! Judging the events of a sequence one after the other.

ghost use Rattle.std.specs.Prelude.{◌≡◌, ◌<◌, ◌+◌, ◌^◌, ◌++◌, [], ◌∷◌, ℕ, List, IfOk, OnOk, length};
ghost use Rattle.event_machine.specs.declared.Event.{Event};
ghost use Rattle.event_machine.specs.Tallies.{HasNoEnd};
ghost use Rattle.syn_event.specs.Numbering.{Numbering};
ghost use Rattle.task_model.specs.Machine.{ProgramWithInputs};
ghost use Rattle.task_machine.specs.Table.{setup_in};
ghost use Rattle.feasible.specs.Keeping.{is_feasible, NothingFollows};
ghost use Rattle.debug_judge.specs.JudgedLines.{IsFoundOf, event_with};

use ada_tree::Memory;
use ada_value::Inputs;
use event_machine::Event;
use feasible::{Judge, Verdict};
use std::alloc::Global;
use task_links::Links;

/// What is found of a sequence: the verdict of its events, their number, the event at the place of a verdict that is not feasible, and a judge that
/// stands for all of them.
#[derive(Drop)]
pub struct LinesVerdict<'p> {
    pub verdict: Verdict,
    pub count: u32,
    pub event: Option<Event>,
    pub judge: Judge<'p>,
}

/// Judges events of a program, where a task may make `local_bound` local steps between the events that change it. Nothing follows the end of the
/// program among them.
pub fn judge_events<'p>(
    alloc: Global,
    links: &'p Links<'p>,
    inputs: &Inputs,
    events: &[Event],
    local_bound: u64,
) -> Result<LinesVerdict<'p>, Memory>
    requires end { NothingFollows events.now }
    requires few { length events.now < 2 ^ 32 }
    ensures { IfOk result (IsFoundOf (setup_in links.now inputs.now) links.now.numbers local_bound events.now) }
{
    let mut found = first_found(alloc, links, inputs, local_bound)?;
    for event in events {
        give(&mut found, event)?;
    }
    Ok(found)
}

// What is found before any event.
pub(crate) fn first_found<'p>(
    alloc: Global,
    links: &'p Links<'p>,
    inputs: &Inputs,
    local_bound: u64,
) -> Result<LinesVerdict<'p>, Memory>
    ensures { IfOk result (IsFoundOf (setup_in links.now inputs.now) links.now.numbers local_bound []) }
{
    let judge = Judge::new(alloc, links, inputs, local_bound)?;
    Ok(LinesVerdict {
        verdict: Verdict::Feasible,
        count: 0,
        event: None,
        judge,
    })
}

// Gives the judge one event more.
pub(crate) fn give(found: &mut LinesVerdict<'_>, event: &Event) -> Result<(), Memory>
    requires taken { found.old.judge.taken + 1 < 2 ^ 32 }
    requires count { found.old.count + 1 < 2 ^ 32 }
    ensures { (setup : ProgramWithInputs) (numbers : Numbering) (bound : ℕ) (events : List Event) → IsFoundOf setup numbers bound events found.old → HasNoEnd events
        → OnOk result (IsFoundOf setup numbers bound (events ++ event.now ∷ []) found.new) }
{
    let verdict = found.judge.next(event)?;
    found.event = event_with(found.verdict, found.event, verdict, *event);
    found.verdict = verdict;
    found.count += 1;
    Ok(())
}

// The event at the place of the verdict, where one event more was given: `before` and `placed` are what was found before it.
fn event_with(
    before: Verdict,
    placed: Option<Event>,
    verdict: Verdict,
    event: Event,
) -> Option<Event>
    ensures { result ≡ event_with before placed verdict event }
{
    if is_feasible(before) && !is_feasible(verdict) {
        Some(event)
    } else {
        placed
    }
}

/// Whether the verdict is that some run has exactly these events.
pub fn is_feasible(verdict: Verdict) -> bool
    ensures { result ≡ is_feasible verdict }
{
    matches!(verdict, Verdict::Feasible)
}
