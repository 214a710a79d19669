// The command that runs a program.

ghost use Rattle.debug_outcome.specs.words.Commands.{name_as, source_as};
ghost use Rattle.debug_outcome.specs.words.Words.{AsksRun};
ghost use Rattle.debug_outcome.specs.files.Giving.{IsShortRun, given_as, inputs_in};
ghost use Rattle.debug_outcome.specs.Coming.{Comes};
ghost use Rattle.debug_outcome.specs.Traces.{HasLoads};
ghost use Rattle.debug_core.specs.Answers.{CallsFor, GrowsFor};
ghost use Rattle.debug_core.specs.RunMeaning.{RunMeans};

use crate::chosen_runs::run_under;
use crate::starting::read_start;
use debug_outcome::files::{RunFiles, load_run};
use debug_outcome::words::RunWords;
use debug_outcome::{Stop, TracedFiles};
use ded_io::Sink;
use std::alloc::Global;
use syn_event::Mode;

// Runs the program in a file with its inputs under the choices, and answers the status.
pub(crate) fn run_command<'w, F: TracedFiles, O: Sink>(
    alloc: Global,
    asked: RunWords<'w>,
    files: &mut F,
    out: &mut O,
) -> Result<u8, Stop<'w>>
    ensures { HasLoads F.leads files.old files.new (λ loads. Comes (CallsFor (AsksRun asked.entry.file.now (name_as asked.entry.inputs) (source_as asked.entry.choices) asked.entry.turns) (F.told files.old) (F.faults files.old) (F.faults files.new) loads) (GrowsFor (AsksRun asked.entry.file.now (name_as asked.entry.inputs) (source_as asked.entry.choices) asked.entry.turns) (F.told files.old) (F.faults files.old) (F.faults files.new) loads) (O.told out.old) (O.told out.new) (O.faults out.old) (O.faults out.new) result) }
{
    match load_run(alloc, asked, files) {
        Ok(found) => run_files(alloc, &found, asked.turns, out),
        Err(stop) => Err(stop),
    }
}

// Runs the program of these files, and writes the text of its run.
fn run_files<'w, O: Sink>(
    alloc: Global,
    found: &RunFiles,
    turns: u64,
    out: &mut O,
) -> Result<u8, Stop<'w>>
    requires { IsShortRun found.now }
    ensures { Comes (RunMeans found.now.start.text.items (inputs_in found.now.start) (given_as found.now.choices) turns) (RunMeans found.now.start.text.items (inputs_in found.now.start) (given_as found.now.choices) turns) (O.told out.old) (O.told out.new) (O.faults out.old) (O.faults out.new) result }
{
    match read_start(alloc, &found.start, Mode::Any) {
        Ok(start) => run_under(alloc, &start, &found.choices, turns, out),
        Err(stop) => Err(stop),
    }
}
