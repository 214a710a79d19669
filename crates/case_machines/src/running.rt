//! Runs of a program.

use ada_tree::Memory;
use ada_value::Inputs;
use case_form::Question;
use case_form::programs::Known;
use ded_io::{ListChooser, MemorySink};
use interp::{RunEnd, RunError, RunReport, run};
use std::alloc::{AllocError, Global};
use task_links::Links;
use task_machine::Machine;

/// No task reads anything.
pub fn no_inputs(alloc: Global) -> Inputs {
    Inputs {
        lists: Vec::new(alloc),
    }
}

// The choices of a question.
fn choices_of(alloc: Global, written: &str) -> Result<ListChooser, AllocError> {
    let mut list = Vec::new(alloc);
    for word in written.split_whitespace() {
        if let Ok(choice) = word.parse::<u32>() {
            list.push(choice)?;
        }
    }
    Ok(ListChooser::new(list))
}

/// `run`: the events of a run of at most so many turns under the question's choices, and how it ends.
pub fn run_question(
    alloc: Global,
    known: &Known,
    turns: u64,
    question: &Question<'_>,
    out: &mut String,
) -> Result<(), Memory> {
    let choices = choices_of(alloc, question.written())?;
    question.ask(out)?;
    put_run(alloc, known, turns, choices, out)
}

fn put_run(
    alloc: Global,
    known: &Known,
    turns: u64,
    mut choices: ListChooser,
    out: &mut String,
) -> Result<(), Memory> {
    let inputs = no_inputs(alloc);
    let checked = &known.checked;
    let links = Links::new(alloc, &known.program, &checked.types, &checked.numbers)?;
    let mut machine = Machine::new(alloc, &links, &inputs)?;
    let mut sink = MemorySink::new(alloc, Vec::new(alloc), 10_000)?;
    match run(
        alloc,
        &mut machine,
        &checked.numbers,
        &mut choices,
        turns,
        &mut sink,
    ) {
        Ok(report) => {
            put_lines(sink.bytes(), out)?;
            put_report(report, out)
        }
        Err(RunError::Memory) => Err(Memory),
        Err(RunError::Sink) => Ok(out.push_str("failed")?),
    }
}

// The lines of events, with a semicolon behind each.
fn put_lines(lines: &[u8], out: &mut String) -> Result<(), AllocError> {
    for byte in lines {
        if *byte == b'\n' {
            out.push_str("; ")?;
        } else {
            out.push(char::from(*byte))?;
        }
    }
    Ok(())
}

fn put_report(report: RunReport, out: &mut String) -> Result<(), Memory> {
    let word = match report.end {
        RunEnd::Ended => "ended",
        RunEnd::Stuck => "stuck",
        RunEnd::Turns => "turns",
    };
    let made = report.made;
    write!(out, "{word} {made}")?;
    Ok(())
}
