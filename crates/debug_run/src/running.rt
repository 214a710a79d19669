//! Running a program, and the text of its run.

ghost use Rattle.std.specs.Prelude.{◌≡◌, ◌<◌, ◌^◌, length};
ghost use Rattle.ada_tree.specs.PlainProgram.{plain_program};
ghost use Rattle.ded_io.specs.Counts.{HasCause};
ghost use Rattle.ded_io.specs.Written.{Wrote};
ghost use Rattle.task_model.specs.picked_runs.Outputs.{output_of};
ghost use Rattle.debug_run.specs.texts.RunText.{rest_of_run, task_part, task_parts};
ghost use Rattle.debug_outcome.specs.Coming.{Comes};
ghost use Rattle.debug_run.specs.RunOutcomes.{IsRunFrom, IsRunOf, run_status};

use crate::texts::{put_end, put_header, put_part};
use ada_tree::{Names, Program, Types};
use ada_value::Inputs;
use debug_outcome::Stop;
use ded_io::{Chooser, Sink, SinkError};
use interp::{RunEnd, RunError, RunReport, run};
use std::alloc::Global;
use syn_event::{Numbers, TaskInfo};
use task_links::Links;
use task_machine::Machine;

/// Runs a program with these inputs, each turn making the action that the next choice picks, for at most `turns` actions, and writes the
/// text of its run. It answers 0 where the program has ended, 10 where no action applies any more, and 11 where all turns were made and
/// more actions apply. The maps of names and the tasks are made before the first line is written.
pub fn write_run<'w, C: Chooser, K: Sink>(
    alloc: Global,
    program: &Program,
    types: &Types,
    numbers: &Numbers,
    inputs: &Inputs,
    choices: &mut C,
    turns: u64,
    out: &mut K,
) -> Result<u8, Stop<'w>>
    ensures { let IsRun = IsRunOf C.word C.next (record { program = plain_program program.now; types = types.now; inputs = inputs.now }) numbers.now choices.old turns in Comes IsRun IsRun (K.told out.old) (K.told out.new) (K.faults out.old) (K.faults out.new) result }
{
    let links = match Links::new(alloc, program, types, numbers) {
        Ok(links) => links,
        Err(_) => return Err(Stop::Memory),
    };
    match Machine::new(alloc, &links, inputs) {
        Ok(mut machine) => {
            let names = &program.names;
            run_machine(alloc, names, numbers, &mut machine, choices, turns, out)
        }
        Err(_) => Err(Stop::Memory),
    }
}

// Runs a machine, and writes the text of its run.
fn run_machine<'w, C: Chooser, K: Sink>(
    alloc: Global,
    names: &Names,
    numbers: &Numbers,
    machine: &mut Machine<'_>,
    choices: &mut C,
    turns: u64,
    out: &mut K,
) -> Result<u8, Stop<'w>>
    ensures { Comes (IsRunFrom C.word C.next names.now numbers.now machine.old choices.old turns) (IsRunFrom C.word C.next names.now numbers.now machine.old choices.old turns) (K.told out.old) (K.told out.new) (K.faults out.old) (K.faults out.new) result }
{
    match put_header(names, numbers, out) {
        Ok(()) => {}
        Err(_) => return Err(Stop::OutputFailed),
    }
    let report = match run(alloc, machine, numbers, choices, turns, out) {
        Ok(report) => report,
        Err(RunError::Memory) => return Err(Stop::Memory),
        Err(RunError::Sink) => return Err(Stop::OutputFailed),
    };
    match put_rest(names, numbers, report, machine, out) {
        Ok(()) => Ok(status_of(report.end)),
        Err(_) => Err(Stop::OutputFailed),
    }
}

// Writes what follows the events of a run: its end, and the tasks with what they have written.
#[tactic(auto, using(ded_io::proofs::Writes::writes))]
fn put_rest<K: Sink>(
    names: &Names,
    numbers: &Numbers,
    report: RunReport,
    machine: &Machine<'_>,
    out: &mut K,
) -> Result<(), SinkError>
    ensures bytes { Wrote result (K.told out.old) (K.told out.new) (rest_of_run names.now numbers.now report.end report.made (output_of machine.now)) }
    ensures cause { HasCause (K.faults out.old) (K.faults out.new) result }
{
    put_end(report, out)?;
    put_tasks(names, &numbers.tasks, machine, out)
}

// Writes the lines of all tasks, from 0, each with what the task has written.
fn put_tasks<K: Sink>(
    names: &Names,
    tasks: &[TaskInfo],
    machine: &Machine<'_>,
    out: &mut K,
) -> Result<(), SinkError>
    requires { length tasks.now < 2 ^ 32 }
    ensures bytes { Wrote result (K.told out.old) (K.told out.new) (task_parts names.now (output_of machine.now) tasks.now) }
    ensures cause { HasCause (K.faults out.old) (K.faults out.new) result }
{
    for (t, info) in tasks.iter().enumerate() {
        match put_task(names, t as u32, info, machine, out) {
            Ok(()) => {}
            Err(e) => return Err(e),
        }
    }
    Ok(())
}

// Writes the line of a task, and what the task has written.
fn put_task<K: Sink>(
    names: &Names,
    t: u32,
    info: &TaskInfo,
    machine: &Machine<'_>,
    out: &mut K,
) -> Result<(), SinkError>
    ensures bytes { Wrote result (K.told out.old) (K.told out.new) (task_part names.now (output_of machine.now) t info.now) }
    ensures cause { HasCause (K.faults out.old) (K.faults out.new) result }
{
    put_part(names, t, info, machine.output(t), out)
}

/// The status of a run by its end.
pub fn status_of(end: RunEnd) -> u8
    ensures { result ≡ run_status end }
{
    match end {
        RunEnd::Ended => 0,
        RunEnd::Stuck => 10,
        RunEnd::Turns => 11,
    }
}
