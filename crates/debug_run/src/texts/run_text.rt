// The text of a run around its events.

ghost use Rattle.std.specs.Prelude.{◌≡◌, ◌<◌, ◌^◌, length, OnOk};
ghost use Rattle.ada_tree.specs.NameList.{AreNames};
ghost use Rattle.ded_io.specs.Counts.{HasCause};
ghost use Rattle.ded_io.specs.Written.{◌⧺◌, Wrote};
ghost use Rattle.debug_run.specs.texts.OutputText.{output_text};
ghost use Rattle.debug_run.specs.texts.RunText.{header, counts, end_line, end_word, task_line, task_lines};
ghost use Rattle.syn_event.specs.Numbering.{original_tasks, original_entries};

use crate::texts::output_text::put_output;
use ada_tree::Names;
use ded_io::decimals::put_number;
use ded_io::{Sink, SinkError};
use syn_event::{Numbers, TaskInfo, name_of, show_task};
use task_model::picked_runs::{RunEnd, RunReport};

// Writes the first line of a run: the program's name and how many tasks and entries the original has.
#[tactic(auto, using(ded_io::proofs::Writes::writes))]
pub fn put_header<K: Sink>(names: &Names, numbers: &Numbers, out: &mut K) -> Result<(), SinkError>
    ensures bytes { Wrote result (K.told out.old) (K.told out.new) (header names.now numbers.now) }
    ensures named { OnOk result (AreNames names.now) }
    ensures cause { HasCause (K.faults out.old) (K.faults out.new) result }
{
    out.put(b"ded-run 1 ")?;
    put_counts(names, numbers, out)
}

// Writes the program's name and how many tasks and entries the original has.
#[tactic(auto, using(ded_io::proofs::Writes::writes))]
pub(crate) fn put_counts<K: Sink>(
    names: &Names,
    numbers: &Numbers,
    out: &mut K,
) -> Result<(), SinkError>
    ensures bytes { Wrote result (K.told out.old) (K.told out.new) (counts names.now numbers.now) }
    ensures named { OnOk result (AreNames names.now) }
    ensures cause { HasCause (K.faults out.old) (K.faults out.new) result }
{
    out.put(name_of(names, numbers.main))?;
    out.put(b" ")?;
    put_number(tasks_of(numbers) as u64, out)?;
    out.put(b" ")?;
    put_number(entries_of(numbers) as u64, out)?;
    out.put(b"\n")
}

// How many tasks beside main the original has.
fn tasks_of(numbers: &Numbers) -> usize
    ensures { result ≡ original_tasks numbers.now }
{
    match numbers.tasks.as_slice() {
        [_, rest @ ..] => rest.iter().filter(|info| !info.added).count(),
        [] => 0,
    }
}

// How many entries the original has.
fn entries_of(numbers: &Numbers) -> usize
    ensures { result ≡ original_entries numbers.now }
{
    numbers.entries.iter().filter(|info| !info.added).count()
}

/// Writes how the run ended, and how many actions it made.
#[tactic(auto, using(ded_io::proofs::Writes::writes))]
pub fn put_end<K: Sink>(report: RunReport, out: &mut K) -> Result<(), SinkError>
    ensures bytes { Wrote result (K.told out.old) (K.told out.new) (end_line report.end report.made) }
    ensures cause { HasCause (K.faults out.old) (K.faults out.new) result }
{
    out.put(word_of(report.end))?;
    put_number(report.made, out)?;
    out.put(b"\n")
}

// The words for how a run ended.
fn word_of(end: RunEnd) -> &'static [u8]
    ensures { result.now ≡ end_word end }
{
    match end {
        RunEnd::Ended => b"end ended ",
        RunEnd::Stuck => b"end stuck ",
        RunEnd::Turns => b"end turns ",
    }
}

// Writes the line of a task.
#[tactic(auto, using(ded_io::proofs::Writes::writes))]
fn put_task<K: Sink>(names: &Names, t: u32, info: &TaskInfo, out: &mut K) -> Result<(), SinkError>
    ensures bytes { Wrote result (K.told out.old) (K.told out.new) (task_line names.now t info.now) }
    ensures cause { HasCause (K.faults out.old) (K.faults out.new) result }
{
    show_task(names, t, info, out)?;
    out.put(b"\n")
}

// Writes the lines of all tasks, from 0.
pub(crate) fn put_tasks<K: Sink>(
    names: &Names,
    tasks: &[TaskInfo],
    out: &mut K,
) -> Result<(), SinkError>
    requires { length tasks.now < 2 ^ 32 }
    ensures bytes { Wrote result (K.told out.old) (K.told out.new) (task_lines names.now tasks.now) }
    ensures cause { HasCause (K.faults out.old) (K.faults out.new) result }
{
    for (t, info) in tasks.iter().enumerate() {
        match put_task(names, t as u32, info, out) {
            Ok(()) => {}
            Err(e) => return Err(e),
        }
    }
    Ok(())
}

/// Writes the line of a task, and behind it what it has written.
///
/// `t` is its number, from 0, and `output` the bytes that it has written.
#[tactic(auto, using(ded_io::proofs::Writes::writes))]
pub fn put_part<K: Sink>(
    names: &Names,
    t: u32,
    info: &TaskInfo,
    output: &[u8],
    out: &mut K,
) -> Result<(), SinkError>
    ensures bytes { Wrote result (K.told out.old) (K.told out.new) (task_line names.now t info.now ⧺ output_text output.now) }
    ensures cause { HasCause (K.faults out.old) (K.faults out.new) result }
{
    put_task(names, t, info, out)?;
    put_output(output, out)
}
