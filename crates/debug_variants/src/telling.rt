//! What can come at each place of a sequence, and which tasks are open there.

ghost use Rattle.std.specs.Prelude.{◌≡◌, ◌≤◌, ◌<◌, ◌+◌, ◌-◌, ◌^◌, ℕ, List, Option, true, length};
ghost use Rattle.ada_tree.specs.PlainProgram.{plain_program};
ghost use Rattle.event_machine.specs.declared.Event as event;
ghost use Rattle.syn_event.specs.DeclaredTasks.{text_of};
ghost use Rattle.seq_file.specs.Files.{NothingFollowsEnd, most_events};
ghost use Rattle.seq_file.specs.Lines.{is_upper_name};
ghost use Rattle.seq_file.specs.Lists.{list_count};
ghost use Rattle.task_model.specs.Machine.{ProgramWithInputs};
ghost use Rattle.task_machine.specs.declared.verdict.Verdict.TheVariants.{Feasible};
ghost use Rattle.task_machine.specs.Judging.{VerdictIs};
ghost use Rattle.task_machine.specs.Table.{setup_in};
ghost use Rattle.feasible.specs.Keeping.{is_feasible};
ghost use Rattle.debug_outcome.specs.Coming.{Comes};
ghost use Rattle.debug_variants.specs.VariantsOutcomes.{VariantsMean, VariantsOf, IsVariantsText};
ghost use Rattle.debug_variants.specs.inner.Placing.{AreToldTo};

use crate::placing::{put_numbered, tell_place};
use ada_tree::{Program, Types};
use ada_value::Inputs;
use debug_judge::{is_feasible, judge_events, report_found};
use debug_outcome::Stop;
use debug_sequence::read_sequence;
use ded_io::Sink;
use event_machine::Event;
use feasible::Judge;
use std::alloc::Global;
use syn_event::Numbers;
use task_links::Links;

/// Tells of each place of a feasible sequence which events can come there but for its own, and which tasks are open there, where a task may make `bound`
/// local steps between the events that change it, and answers 0. For a sequence with another verdict it writes the text of that, with its status. Bytes
/// that stand for no sequence of the program are refused.
///
/// `lines` are those bytes, in either format. All tasks are the original's, and the program's name is in upper case. The text is written place by place,
/// by a second judge once the first has given the verdict: out of memory a front of it may stand.
pub fn report_variants<'w, K: Sink>(
    alloc: Global,
    program: &Program,
    types: &Types,
    numbers: &Numbers,
    inputs: &Inputs,
    lines: &[u8],
    bound: u64,
    out: &mut K,
) -> Result<u8, Stop<'w>>
    requires lines { length lines.now < 2 ^ 32 - 1 }
    requires name { is_upper_name (text_of (plain_program program.now).names numbers.now.main) ≡ true }
    requires tasks { length numbers.now.tasks ≡ list_count numbers.now }
    ensures { let Mean = VariantsMean (record { program = plain_program program.now; types = types.now; inputs = inputs.now }) numbers.now lines.now bound in Comes Mean Mean (K.told out.old) (K.told out.new) (K.faults out.old) (K.faults out.new) result }
{
    let links = match Links::new(alloc, program, types, numbers) {
        Ok(links) => links,
        Err(_) => return Err(Stop::Memory),
    };
    let events = match read_sequence(alloc, lines, numbers, &program.names) {
        Ok(events) => events,
        Err(stop) => return Err(stop),
    };
    report_events(alloc, &links, inputs, &events, bound, out)
}

// The same of the events of a sequence.
fn report_events<'w, 'p, K: Sink>(
    alloc: Global,
    links: &'p Links<'p>,
    inputs: &Inputs,
    events: &[Event],
    bound: u64,
    out: &mut K,
) -> Result<u8, Stop<'w>>
    requires end { NothingFollowsEnd events.now }
    requires few { length events.now ≤ most_events }
    ensures { let Mean = VariantsOf (setup_in links.now inputs.now) links.now.numbers bound events.now in Comes Mean Mean (K.told out.old) (K.told out.new) (K.faults out.old) (K.faults out.new) result }
{
    let found = match judge_events(alloc, links, inputs, events, bound) {
        Ok(found) => found,
        Err(_) => return Err(Stop::Memory),
    };
    if is_feasible(found.verdict) {
        tell_places(alloc, links, inputs, events, bound, out)
    } else {
        report_found(&found, links, out)
    }
}

// Tells of each place of feasible events.
fn tell_places<'w, 'p, K: Sink>(
    alloc: Global,
    links: &'p Links<'p>,
    inputs: &Inputs,
    events: &[Event],
    bound: u64,
    out: &mut K,
) -> Result<u8, Stop<'w>>
    requires end { NothingFollowsEnd events.now }
    requires few { length events.now ≤ most_events }
    requires feasible { VerdictIs (setup_in links.now inputs.now) links.now.numbers bound events.now Feasible }
    ensures { let Mean = IsVariantsText (setup_in links.now inputs.now) links.now.numbers bound events.now in Comes Mean Mean (K.told out.old) (K.told out.new) (K.faults out.old) (K.faults out.new) result }
{
    let mut judge = match Judge::new(alloc, links, inputs, bound) {
        Ok(judge) => judge,
        Err(_) => return Err(Stop::Memory),
    };
    match put_numbered(b"variants ", events.len() as u64, out) {
        Ok(()) => {}
        Err(_) => return Err(Stop::OutputFailed),
    }
    let mut number: u32 = 1;
    for event in events {
        match tell_place(alloc, &mut judge, links.numbers(), number, Some(event), out) {
            Ok(()) => {}
            Err(stop) => return Err(stop),
        }
        match judge.next(event) {
            Ok(_) => number += 1,
            Err(_) => return Err(Stop::Memory),
        }
    }
    tell_last(alloc, &mut judge, links.numbers(), number, out)
}

// Tells of the place behind the last event, unless the program has ended.
fn tell_last<'w, K: Sink>(
    alloc: Global,
    judge: &mut Judge<'_>,
    numbers: &Numbers,
    number: u32,
    out: &mut K,
) -> Result<u8, Stop<'w>>
    requires feasible { is_feasible judge.old.verdict ≡ true }
    requires numbers { numbers.now ≡ judge.old.numbers }
    // where all places before it were told, and the judge stands for all events
    ensures { (setup : ProgramWithInputs) (bound : ℕ) (events : List event.Event) (told : Option (List ℕ)) (faults : ℕ) → AreToldTo setup numbers.now bound events (length events) judge.old told (K.told out.old) faults (K.faults out.old)
        → NothingFollowsEnd events → VerdictIs setup numbers.now bound events Feasible → number ≡ length events + 1
        → let Mean = IsVariantsText setup numbers.now bound events in Comes Mean Mean told (K.told out.new) faults (K.faults out.new) result }
{
    if judge.ended() {
        return Ok(0);
    }
    match tell_place(alloc, judge, numbers, number, None, out) {
        Ok(()) => Ok(0),
        Err(stop) => Err(stop),
    }
}
