//! Going on from a sequence.

ghost use Rattle.std.specs.Prelude.{◌≡◌, ◌≤◌, ◌<◌, ◌+◌, ◌-◌, ◌^◌, true, length};
ghost use Rattle.ada_tree.specs.PlainProgram.{plain_program};
ghost use Rattle.syn_event.specs.DeclaredTasks.{text_of};
ghost use Rattle.seq_file.specs.Files.{AreFit, most_events};
ghost use Rattle.seq_file.specs.Lines.{is_upper_name};
ghost use Rattle.seq_file.specs.Lists.{list_count};
ghost use Rattle.task_model.specs.Machine.{ProgramWithInputs};
ghost use Rattle.task_machine.specs.Table.{setup_in};
ghost use Rattle.feasible.specs.Keeping.{StandsFor, is_feasible};
ghost use Rattle.debug_outcome.specs.Coming.{Comes, Never};
ghost use Rattle.debug_variants.specs.ContinueOutcomes.{ContinueMeans, GoesOnFrom, IsContinuedText, end_status};

use ada_tree::{Program, Types};
use ada_value::Inputs;
use debug_judge::{is_feasible, judge_events, report_found};
use debug_outcome::{Listed, Refusal, Stop};
use debug_sequence::read_sequence;
use ded_io::{Chooser, Sink};
use event_machine::Event;
use feasible::Judge;
use race_variant::{GoEnd, go_on};
use seq_file::write_seq;
use std::alloc::Global;
use syn_event::Numbers;
use task_links::Links;

// A sequence has at most this many events.
const MOST_EVENTS: u32 = 200_000;

/// Goes on from a feasible sequence by the choices, for at most `count` events, where a task may make `bound` local steps between the events that change
/// it, and writes the file of the sequence with the chosen events behind it. It answers 0 where the program has ended, 10 where nothing can come next,
/// 5 where nothing can and a task is open, and 11 where all events were chosen and more can come.
///
/// `lines` are the bytes of the sequence, in either format. All tasks are the original's, and the program's name is in upper case. Bytes that stand for
/// no sequence of the program are refused; else so is a `count` with which a file could have too many events; and of a sequence with another verdict the
/// text of that is written, with its status. All events are chosen before the first line is written, so that want of memory comes before it.
pub fn report_continued<'w, C: Chooser, K: Sink>(
    alloc: Global,
    program: &Program,
    types: &Types,
    numbers: &Numbers,
    inputs: &Inputs,
    lines: &[u8],
    choices: &mut C,
    count: u32,
    bound: u64,
    out: &mut K,
) -> Result<u8, Stop<'w>>
    requires lines { length lines.now < 2 ^ 32 - 1 }
    requires name { is_upper_name (text_of (plain_program program.now).names numbers.now.main) ≡ true }
    requires tasks { length numbers.now.tasks ≡ list_count numbers.now }
    ensures { Comes (ContinueMeans C.word C.next (record { program = plain_program program.now; types = types.now; inputs = inputs.now }) numbers.now lines.now choices.old count bound) Never (K.told out.old) (K.told out.new) (K.faults out.old) (K.faults out.new) result }
{
    let links = match Links::new(alloc, program, types, numbers) {
        Ok(links) => links,
        Err(_) => return Err(Stop::Memory),
    };
    let events = match read_sequence(alloc, lines, numbers, &program.names) {
        Ok(events) => events,
        Err(stop) => return Err(stop),
    };
    if events.len() as u64 + count as u64 > MOST_EVENTS as u64 {
        return Err(Stop::Refused(Refusal::TooMany {
            what: Listed::Events,
            limit: MOST_EVENTS,
        }));
    }
    report_from(alloc, &links, inputs, events, choices, count, bound, out)
}

// The same of the events of a sequence, with which a file may have as many events.
fn report_from<'w, 'p, C: Chooser, K: Sink>(
    alloc: Global,
    links: &'p Links<'p>,
    inputs: &Inputs,
    events: Vec<Event>,
    choices: &mut C,
    count: u32,
    bound: u64,
    out: &mut K,
) -> Result<u8, Stop<'w>>
    requires fit { AreFit links.now.numbers events.items }
    requires few { length events.items + count ≤ most_events }
    ensures { Comes (GoesOnFrom C.word C.next (setup_in links.now inputs.now) links.now.numbers bound events.items choices.old count) Never (K.told out.old) (K.told out.new) (K.faults out.old) (K.faults out.new) result }
{
    let mut found = match judge_events(alloc, links, inputs, &events, bound) {
        Ok(found) => found,
        Err(_) => return Err(Stop::Memory),
    };
    if is_feasible(found.verdict) {
        go_on_from(alloc, links, &mut found.judge, events, choices, count, out)
    } else {
        report_found(&found, links, out)
    }
}

// Goes on from the feasible events for which the judge stands, and writes the file of all.
fn go_on_from<'w, C: Chooser, K: Sink>(
    alloc: Global,
    links: &Links<'_>,
    judge: &mut Judge<'_>,
    mut events: Vec<Event>,
    choices: &mut C,
    count: u32,
    out: &mut K,
) -> Result<u8, Stop<'w>>
    requires feasible { is_feasible judge.old.verdict ≡ true }
    requires numbers { links.now.numbers ≡ judge.old.numbers }
    requires fit { AreFit links.now.numbers events.items }
    requires few { length events.items + count ≤ most_events }
    requires taken { judge.old.taken + count < 2 ^ 32 }
    ensures { (setup : ProgramWithInputs) → setup.program ≡ links.now.program → StandsFor setup events.items judge.old
        → Comes (IsContinuedText C.word C.next setup links.now.numbers judge.old.bound events.items choices.old count) Never (K.told out.old) (K.told out.new) (K.faults out.old) (K.faults out.new) result }
{
    let mut chosen = Vec::new(alloc);
    let end = match go_on(alloc, judge, links.numbers(), choices, count, &mut chosen) {
        Ok(end) => end,
        Err(_) => return Err(Stop::Memory),
    };
    match events.extend_from_slice(&chosen) {
        Ok(()) => {}
        Err(_) => return Err(Stop::Memory),
    }
    match write_seq(&events, links.numbers(), &links.program().names, out) {
        Ok(()) => Ok(status_of(end)),
        Err(_) => Err(Stop::OutputFailed),
    }
}

// The status by how the going on ends.
fn status_of(end: GoEnd) -> u8
    ensures { result ≡ end_status end }
{
    match end {
        GoEnd::Ended => 0,
        GoEnd::Stuck => 10,
        GoEnd::Open => 5,
        GoEnd::Count => 11,
    }
}
