// The command that writes the collecting text of a program.

ghost use Rattle.std.specs.Prelude.{◌≤◌, length};
ghost use Rattle.debug_outcome.specs.words.Words.{AsksCollect};
ghost use Rattle.debug_outcome.specs.files.Wanting.{original_bytes};
ghost use Rattle.debug_outcome.specs.Coming.{Comes, Never};
ghost use Rattle.debug_outcome.specs.Traces.{HasLoads};
ghost use Rattle.debug_core.specs.Answers.{CallsFor};
ghost use Rattle.debug_core.specs.CollectMeaning.{CollectMeans};

use crate::reading::read_legal;
use debug_collect::write_collect;
use debug_outcome::files::ORIGINAL_LIMIT;
use debug_outcome::{Stop, TracedFiles, load_file};
use ded_io::Sink;
use std::alloc::Global;
use syn_event::Mode;

// Writes the collecting text of the program in a file, and answers the status.
pub(crate) fn collect_command<'w, F: TracedFiles, O: Sink>(
    alloc: Global,
    file: &'w str,
    files: &mut F,
    out: &mut O,
) -> Result<u8, Stop<'w>>
    ensures { HasLoads F.leads files.old files.new (λ loads. Comes (CallsFor (AsksCollect file.now) (F.told files.old) (F.faults files.old) (F.faults files.new) loads) Never (O.told out.old) (O.told out.new) (O.faults out.old) (O.faults out.new) result) }
{
    match load_file(alloc, file, ORIGINAL_LIMIT, files) {
        Ok(text) => collect_text(alloc, &text, out),
        Err(stop) => Err(stop),
    }
}

// Writes the collecting text of the program of a text.
fn collect_text<'w, O: Sink>(alloc: Global, text: &[u8], out: &mut O) -> Result<u8, Stop<'w>>
    requires { length text.now ≤ original_bytes }
    ensures { Comes (CollectMeans text.now) Never (O.told out.old) (O.told out.new) (O.faults out.old) (O.faults out.new) result }
{
    match read_legal(alloc, text, Mode::Original) {
        Ok(legal) => { write_collect(alloc, &legal.program, &legal.types, &legal.numbers, out) }
        Err(stop) => Err(stop),
    }
}
