//! The text of what is found of a sequence.

ghost use Rattle.std.specs.Prelude.{◌≡◌, ◌<◌, ◌-◌, ◌^◌, ℕ, List, length, true, false};
ghost use Rattle.ada_tree.specs.PlainProgram.{plain_program};
ghost use Rattle.event_machine.specs.declared.Event.{Event};
ghost use Rattle.syn_event.specs.DeclaredTasks.{text_of};
ghost use Rattle.seq_file.specs.Lines.{is_upper_name};
ghost use Rattle.seq_file.specs.Lists.{is_in_lists, list_count};
ghost use Rattle.seq_file.specs.Short.{IsShort};
ghost use Rattle.task_model.specs.Machine.{ProgramWithInputs};
ghost use Rattle.task_machine.specs.Table.{setup_in};
ghost use Rattle.feasible.specs.Keeping.{NothingFollows};
ghost use Rattle.divergence.specs.Seen.{AreSettled};
ghost use Rattle.debug_outcome.specs.Coming.{Comes, Never};
ghost use Rattle.debug_judge.specs.JudgeOutcomes.{SequenceMeans, IsVerdictText, verdict_status};
ghost use Rattle.debug_judge.specs.JudgedLines.{IsFoundOf};

use crate::judged_events::{LinesVerdict, judge_events};
use crate::judged_lines::{LinesError, judge_lines};
use ada_tree::{Program, Types};
use ada_value::Inputs;
use debug_outcome::Stop;
use debug_outcome::sequences::sequence_failure;
use debug_sequence::read_sequence;
use ded_io::Sink;
use divergence::report;
use feasible::Verdict;
use seq_file::is_in_lists;
use std::alloc::Global;
use syn_event::Numbers;
use task_links::Links;

/// Judges the sequence of a program that a file stands for, where a task may make `bound` local steps between the events that change it, and writes
/// the text of the verdict: 0 where the sequence is feasible, 4 where it is infeasible, and 5 where a task is not settled. Bytes that stand for no
/// sequence of the program are refused.
///
/// `lines` are those bytes, in either format. A file of one list is judged line by line, and no list of events is kept; lists by tasks are joined
/// first. All tasks are the original's, the program's name is in upper case, and its tasks and entries have numbers of 32 bits.
pub fn report_lines<'w, K: Sink>(
    alloc: Global,
    program: &Program,
    types: &Types,
    numbers: &Numbers,
    inputs: &Inputs,
    lines: &[u8],
    bound: u64,
    out: &mut K,
) -> Result<u8, Stop<'w>>
    requires lines { length lines.now < 2 ^ 32 - 1 }
    requires name { is_upper_name (text_of (plain_program program.now).names numbers.now.main) ≡ true }
    requires tasks { length numbers.now.tasks ≡ list_count numbers.now }
    requires short { IsShort numbers.now }
    ensures { Comes (SequenceMeans (record { program = plain_program program.now; types = types.now; inputs = inputs.now }) numbers.now lines.now bound) Never (K.told out.old) (K.told out.new) (K.faults out.old) (K.faults out.new) result }
{
    let links = match Links::new(alloc, program, types, numbers) {
        Ok(links) => links,
        Err(_) => return Err(Stop::Memory),
    };
    if is_in_lists(lines) {
        report_joined(alloc, &links, inputs, lines, bound, out)
    } else {
        report_one_list(alloc, &links, inputs, lines, bound, out)
    }
}

// The same of a file by tasks.
fn report_joined<'w, 'p, K: Sink>(
    alloc: Global,
    links: &'p Links<'p>,
    inputs: &Inputs,
    lines: &[u8],
    bound: u64,
    out: &mut K,
) -> Result<u8, Stop<'w>>
    requires lines { length lines.now < 2 ^ 32 - 1 }
    requires name { is_upper_name (text_of links.now.program.names links.now.numbers.main) ≡ true }
    requires tasks { length links.now.numbers.tasks ≡ list_count links.now.numbers }
    requires short { IsShort links.now.numbers }
    ensures { Comes (SequenceMeans (setup_in links.now inputs.now) links.now.numbers lines.now bound) Never (K.told out.old) (K.told out.new) (K.faults out.old) (K.faults out.new) result }
{
    let events = match read_sequence(alloc, lines, links.numbers(), &links.program().names) {
        Ok(events) => events,
        Err(stop) => return Err(stop),
    };
    match judge_events(alloc, links, inputs, &events, bound) {
        Ok(found) => report_found(&found, links, out),
        Err(_) => Err(Stop::Memory),
    }
}

// The same of a file of one list.
fn report_one_list<'w, 'p, K: Sink>(
    alloc: Global,
    links: &'p Links<'p>,
    inputs: &Inputs,
    lines: &'p [u8],
    bound: u64,
    out: &mut K,
) -> Result<u8, Stop<'w>>
    requires lines { length lines.now < 2 ^ 32 - 1 }
    requires format { is_in_lists lines.now ≡ false }
    ensures { Comes (SequenceMeans (setup_in links.now inputs.now) links.now.numbers lines.now bound) Never (K.told out.old) (K.told out.new) (K.faults out.old) (K.faults out.new) result }
{
    match judge_lines(alloc, links, inputs, lines, bound) {
        Ok(found) => report_found(&found, links, out),
        Err(LinesError::Seq(error)) => Err(sequence_failure(error)),
        Err(LinesError::Memory) => Err(Stop::Memory),
    }
}

/// Writes the text of the verdict that is found of events, and answers its status.
pub fn report_found<'w, K: Sink>(
    found: &LinesVerdict<'_>,
    links: &Links<'_>,
    out: &mut K,
) -> Result<u8, Stop<'w>>
    requires numbers { links.now.numbers ≡ found.now.judge.numbers }
    requires settled { AreSettled found.now.judge.tasks links.now.numbers found.now.verdict found.now.event }
    ensures { (setup : ProgramWithInputs) (bound : ℕ) (events : List Event) → setup.program ≡ links.now.program → NothingFollows events → IsFoundOf setup links.now.numbers bound events found.now
        → Comes (IsVerdictText setup links.now.numbers bound events) Never (K.told out.old) (K.told out.new) (K.faults out.old) (K.faults out.new) result }
{
    match report(
        &found.verdict,
        found.count,
        found.event.as_ref(),
        &found.judge,
        links.numbers(),
        &links.program().names,
        out,
    ) {
        Ok(()) => Ok(status_of(found.verdict)),
        Err(_) => Err(Stop::OutputFailed),
    }
}

// The status of a verdict.
fn status_of(verdict: Verdict) -> u8
    ensures { result ≡ verdict_status verdict }
{
    match verdict {
        Verdict::Feasible => 0,
        Verdict::Infeasible { .. } => 4,
        Verdict::Unsettled { .. } => 5,
    }
}
