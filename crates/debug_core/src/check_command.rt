// The command that checks a program and writes the numbers of its tasks and entries.

ghost use Rattle.std.specs.Prelude.{◌<◌, ◌-◌, ◌^◌, length};
ghost use Rattle.debug_outcome.specs.words.Words.{AsksCheck};
ghost use Rattle.debug_outcome.specs.Coming.{Comes, Never};
ghost use Rattle.debug_outcome.specs.Traces.{HasLoads};
ghost use Rattle.debug_core.specs.Answers.{CallsFor};
ghost use Rattle.debug_core.specs.CheckMeaning.{CheckMeans};

use crate::reading::read_legal;
use debug_outcome::files::ORIGINAL_LIMIT;
use debug_outcome::{Stop, TracedFiles, load_file};
use debug_run::texts::put_numbers;
use ded_io::Sink;
use std::alloc::Global;
use syn_event::Mode;

// Checks the program in a file, and answers the status.
pub(crate) fn check_command<'w, F: TracedFiles, O: Sink>(
    alloc: Global,
    file: &'w str,
    files: &mut F,
    out: &mut O,
) -> Result<u8, Stop<'w>>
    ensures { HasLoads F.leads files.old files.new (λ loads. Comes (CallsFor (AsksCheck file.now) (F.told files.old) (F.faults files.old) (F.faults files.new) loads) Never (O.told out.old) (O.told out.new) (O.faults out.old) (O.faults out.new) result) }
{
    match load_file(alloc, file, ORIGINAL_LIMIT, files) {
        Ok(text) => check_text(alloc, &text, out),
        Err(stop) => Err(stop),
    }
}

// Checks the program of a text, and then writes its numbers.
fn check_text<'w, O: Sink>(alloc: Global, text: &[u8], out: &mut O) -> Result<u8, Stop<'w>>
    requires { length text.now < 2 ^ 32 - 1 }
    ensures { Comes (CheckMeans text.now) Never (O.told out.old) (O.told out.new) (O.faults out.old) (O.faults out.new) result }
{
    match read_legal(alloc, text, Mode::Original) {
        Ok(legal) => match put_numbers(&legal.program.names, &legal.numbers, out) {
            Ok(()) => Ok(0),
            Err(_) => Err(Stop::OutputFailed),
        },
        Err(stop) => Err(stop),
    }
}
