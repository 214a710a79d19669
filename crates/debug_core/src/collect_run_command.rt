// The command that runs the collecting text of a program, and writes the sequence that it records.

ghost use Rattle.ada_tree.specs.PlainProgram.{plain_program};
ghost use Rattle.debug_collect.specs.Recorded.{IsRecorded};
ghost use Rattle.debug_outcome.specs.words.Commands.{name_as, source_as};
ghost use Rattle.debug_outcome.specs.words.Words.{AsksCollectRun};
ghost use Rattle.debug_outcome.specs.files.Giving.{AreShortChoices, IsShortCollect, given_as, inputs_in};
ghost use Rattle.debug_outcome.specs.Coming.{Comes, Never};
ghost use Rattle.debug_outcome.specs.Traces.{HasLoads};
ghost use Rattle.debug_core.specs.Answers.{CallsFor};
ghost use Rattle.debug_core.specs.CollectRunMeaning.{CollectRunMeans, RecordsBy, RecordsUnder};
ghost use Rattle.debug_core.specs.inner.Started.{IsLegalStart, choosing_of, setup_of};

use crate::choosing::{Choosing, choosing_of};
use crate::starting::{Start, read_start};
use debug_collect::write_recorded;
use debug_outcome::files::{ChoiceBytes, RunFiles, load_collect};
use debug_outcome::words::RunWords;
use debug_outcome::{Stop, TracedFiles};
use ded_io::{Chooser, ListChooser, SeedChooser, Sink};
use std::alloc::Global;
use syn_event::Mode;

// Runs the collecting text of the program in a file with its inputs under the choices, and answers the status.
pub(crate) fn collect_run_command<'w, F: TracedFiles, O: Sink>(
    alloc: Global,
    asked: RunWords<'w>,
    files: &mut F,
    out: &mut O,
) -> Result<u8, Stop<'w>>
    ensures { HasLoads F.leads files.old files.new (λ loads. Comes (CallsFor (AsksCollectRun asked.entry.file.now (name_as asked.entry.inputs) (source_as asked.entry.choices) asked.entry.turns) (F.told files.old) (F.faults files.old) (F.faults files.new) loads) Never (O.told out.old) (O.told out.new) (O.faults out.old) (O.faults out.new) result) }
{
    match load_collect(alloc, asked, files) {
        Ok(found) => record_files(alloc, &found, asked.turns, out),
        Err(stop) => Err(stop),
    }
}

// Runs the collecting text of the program of these files, and writes the sequence that it records.
fn record_files<'w, O: Sink>(
    alloc: Global,
    found: &RunFiles,
    turns: u64,
    out: &mut O,
) -> Result<u8, Stop<'w>>
    requires { IsShortCollect found.now }
    ensures { Comes (CollectRunMeans found.now.start.text.items (inputs_in found.now.start) (given_as found.now.choices) turns) Never (O.told out.old) (O.told out.new) (O.faults out.old) (O.faults out.new) result }
{
    match read_start(alloc, &found.start, Mode::Original) {
        Ok(start) => { record_under(alloc, &start, &found.choices, turns, out) }
        Err(stop) => Err(stop),
    }
}

// The same of a legal original, under the choices that are given.
fn record_under<'w, O: Sink>(
    alloc: Global,
    start: &Start,
    choices: &ChoiceBytes,
    turns: u64,
    out: &mut O,
) -> Result<u8, Stop<'w>>
    requires legal { IsLegalStart start.now }
    requires choices { AreShortChoices choices.now }
    ensures { Comes (RecordsUnder (setup_of start.now) start.now.legal.numbers (given_as choices.now) turns) Never (O.told out.old) (O.told out.new) (O.faults out.old) (O.faults out.new) result }
{
    match choosing_of(alloc, choices) {
        Ok(choosing) => record_chosen(alloc, start, choosing, turns, out),
        Err(stop) => Err(stop),
    }
}

// The same as the choices pick that are made so.
fn record_chosen<'w, O: Sink>(
    alloc: Global,
    start: &Start,
    choosing: Choosing,
    turns: u64,
    out: &mut O,
) -> Result<u8, Stop<'w>>
    requires legal { IsLegalStart start.now }
    ensures { Comes (RecordsBy (setup_of start.now) start.now.legal.numbers turns (choosing_of choosing)) Never (O.told out.old) (O.told out.new) (O.faults out.old) (O.faults out.new) result }
{
    match choosing {
        Choosing::FromList(choices) => {
            record_by(alloc, start, &mut ListChooser::new(choices), turns, out)
        }
        Choosing::FromSeed(seed) => {
            record_by(alloc, start, &mut SeedChooser::new(seed), turns, out)
        }
    }
}

// The same under the picks of a chooser.
fn record_by<'w, C: Chooser, O: Sink>(
    alloc: Global,
    start: &Start,
    choices: &mut C,
    turns: u64,
    out: &mut O,
) -> Result<u8, Stop<'w>>
    requires legal { IsLegalStart start.now }
    ensures { Comes (IsRecorded C.word C.next (plain_program start.now.legal.program) start.now.legal.types start.now.legal.numbers start.now.inputs choices.old turns) Never (O.told out.old) (O.told out.new) (O.faults out.old) (O.faults out.new) result }
{
    write_recorded(
        alloc,
        &start.legal.program,
        &start.legal.types,
        &start.legal.numbers,
        &start.inputs,
        choices,
        turns,
        out,
    )
}
