// The command that prints a program.

ghost use Rattle.std.specs.Prelude.{◌<◌, ◌-◌, ◌^◌, length};
ghost use Rattle.debug_outcome.specs.words.Words.{AsksPrint};
ghost use Rattle.debug_outcome.specs.Coming.{Comes, Never};
ghost use Rattle.debug_outcome.specs.Traces.{HasLoads};
ghost use Rattle.debug_core.specs.Answers.{CallsFor};
ghost use Rattle.debug_core.specs.PrintMeaning.{PrintMeans};

use crate::reading::read_text;
use ada_printer::print;
use debug_outcome::files::TEXT_LIMIT;
use debug_outcome::{Stop, TracedFiles, load_file};
use ded_io::Sink;
use std::alloc::Global;

// Prints the program in a file, and answers the status.
pub(crate) fn print_command<'w, F: TracedFiles, O: Sink>(
    alloc: Global,
    file: &'w str,
    files: &mut F,
    out: &mut O,
) -> Result<u8, Stop<'w>>
    ensures { HasLoads F.leads files.old files.new (λ loads. Comes (CallsFor (AsksPrint file.now) (F.told files.old) (F.faults files.old) (F.faults files.new) loads) Never (O.told out.old) (O.told out.new) (O.faults out.old) (O.faults out.new) result) }
{
    match load_file(alloc, file, TEXT_LIMIT, files) {
        Ok(text) => print_text(alloc, &text, out),
        Err(stop) => Err(stop),
    }
}

// Reads the program of a text, all of it, and then writes its text.
fn print_text<'w, O: Sink>(alloc: Global, text: &[u8], out: &mut O) -> Result<u8, Stop<'w>>
    requires { length text.now < 2 ^ 32 - 1 }
    ensures { Comes (PrintMeans text.now) Never (O.told out.old) (O.told out.new) (O.faults out.old) (O.faults out.new) result }
{
    match read_text(alloc, text) {
        Ok(program) => match print(&program, out) {
            Ok(()) => Ok(0),
            Err(_) => Err(Stop::OutputFailed),
        },
        Err(stop) => Err(stop),
    }
}
