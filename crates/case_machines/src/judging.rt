//! Judgments of sequences of events of a program.

ghost use Rattle.std.specs.Prelude.{◌≡◌, ◌<◌, ◌-◌, ◌^◌, length};
ghost use Rattle.ada_tree.specs.PlainProgram.{plain_program};
ghost use Rattle.ada_tree.specs.WellPlaced.{IsWellPlaced};
ghost use Rattle.feasible.specs.Keeping.{NothingFollows};
ghost use Rattle.syn_event.specs.Legal.{Legal};

use crate::running::no_inputs;
use ada_tree::Memory;
use case_form::programs::{Known, put_fault, sequence_of};
use case_form::{Question, put_comma};
use feasible::{Cause, Judge, Verdict, judge_all};
use std::alloc::Global;
use syn_event::{Event, Mode};
use task_links::Links;

// The bytes of a sequence of the program: its header, and the question's events with a semicolon between as its lines.
fn lines_of(alloc: Global, known: &Known, written: &str) -> Result<String, Memory> {
    let numbers = &known.checked.numbers;
    let name = known.program.names.text(numbers.main).unwrap_or("?");
    let tasks = numbers.tasks.len().saturating_sub(1);
    let entries = numbers.entries.len();
    let mut lines = format!(in alloc; "ded-seq 1 {name} {tasks} {entries}\n")?;
    for event in written.split("; ") {
        if event != "%-" {
            lines.push_str(event)?;
            lines.push('\n')?;
        }
    }
    Ok(lines)
}

/// How a list of events is judged.
#[derive(Clone, Copy)]
pub enum Judging {
    /// The verdict on all.
    Whole,
    /// The verdict behind each event.
    Each,
}

/// `judge_all` and `judge`: the verdict on the question's events, or the verdicts behind each of them, where so many local steps are allowed.
#[tactic(auto, using(crate::proofs::Following::nothing_follows))]
pub fn judge_question(
    alloc: Global,
    known: &Known,
    judging: Judging,
    bound: u64,
    question: &Question<'_>,
    out: &mut String,
) -> Result<(), Memory>
    requires placed { IsWellPlaced (plain_program known.now.program) }
    requires legal { Legal (plain_program known.now.program) known.now.checked.types known.now.checked.numbers Mode.Original }
{
    let lines = lines_of(alloc, known, question.written())?;
    question.ask(out)?;
    match sequence_of(alloc, known, Mode::Original, lines.as_bytes()) {
        Ok(events) => put_judged(alloc, known, judging, bound, &events, out),
        Err(error) => put_fault(error, out),
    }
}

fn put_judged(
    alloc: Global,
    known: &Known,
    judging: Judging,
    bound: u64,
    events: &[Event],
    out: &mut String,
) -> Result<(), Memory>
    requires end { NothingFollows events.now }
    requires few { length events.now < 2 ^ 32 - 1 }
{
    let inputs = no_inputs(alloc);
    let (program, checked) = (&known.program, &known.checked);
    let (types, numbers) = (&checked.types, &checked.numbers);
    match judging {
        Judging::Whole => {
            let verdict = judge_all(alloc, program, types, numbers, &inputs, events, bound)?;
            put_verdict(verdict, out)
        }
        Judging::Each => {
            let links = Links::new(alloc, program, types, numbers)?;
            let mut judge = Judge::new(alloc, &links, &inputs, bound)?;
            put_each(&mut judge, events, out)
        }
    }
}

// The verdict behind each event.
fn put_each(judge: &mut Judge<'_>, events: &[Event], out: &mut String) -> Result<(), Memory>
    requires few { length events.now < 2 ^ 32 - 1 }
    requires first { judge.old.taken ≡ 0 }
{
    let mut is_first = true;
    for event in events {
        put_comma(out, is_first)?;
        is_first = false;
        let verdict = judge.next(event)?;
        put_verdict(verdict, out)?;
    }
    Ok(())
}

fn put_verdict(verdict: Verdict, out: &mut String) -> Result<(), Memory> {
    match verdict {
        Verdict::Feasible => out.push_str("feasible")?,
        Verdict::Infeasible { at, why } => {
            let (cause, task) = (cause_word(why.cause), why.task);
            write!(out, "infeasible {at} {cause} {task}")?;
        }
        Verdict::Unsettled { at, task } => write!(out, "unsettled {at} {task}")?,
    }
    Ok(())
}

fn cause_word(cause: Cause) -> &'static str {
    match cause {
        Cause::Closed => "closed",
        Cause::Busy => "busy",
        Cause::NotClosed => "open",
        Cause::Offer => "offer",
    }
}
