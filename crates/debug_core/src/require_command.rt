// The command that tells which constraints a sequence breaks.

ghost use Rattle.debug_outcome.specs.words.Words.{AsksRequire};
ghost use Rattle.debug_outcome.specs.files.Giving.{IsShortRequire};
ghost use Rattle.debug_outcome.specs.Coming.{Comes, Never};
ghost use Rattle.debug_outcome.specs.Traces.{HasLoads};
ghost use Rattle.debug_core.specs.Answers.{CallsFor};
ghost use Rattle.debug_core.specs.RequireMeaning.{RequireMeans};

use crate::reading::read_legal;
use debug_outcome::files::{RequireFiles, load_require};
use debug_outcome::words::RequireWords;
use debug_outcome::{Stop, TracedFiles};
use debug_sequence::report_breaks;
use ded_io::Sink;
use std::alloc::Global;
use syn_event::Mode;

// Tells which of the constraints in a file the sequence in another breaks, for the program in a third, and answers the status.
pub(crate) fn require_command<'w, F: TracedFiles, O: Sink>(
    alloc: Global,
    asked: RequireWords<'w>,
    files: &mut F,
    out: &mut O,
) -> Result<u8, Stop<'w>>
    ensures { HasLoads F.leads files.old files.new (λ loads. Comes (CallsFor (AsksRequire asked.entry.file.now asked.entry.sequence.now asked.entry.constraints.now) (F.told files.old) (F.faults files.old) (F.faults files.new) loads) Never (O.told out.old) (O.told out.new) (O.faults out.old) (O.faults out.new) result) }
{
    match load_require(alloc, asked, files) {
        Ok(found) => require_files(alloc, &found, out),
        Err(stop) => Err(stop),
    }
}

// Tells which of the constraints of these files their sequence breaks.
fn require_files<'w, O: Sink>(
    alloc: Global,
    found: &RequireFiles,
    out: &mut O,
) -> Result<u8, Stop<'w>>
    requires { IsShortRequire found.now }
    ensures { Comes (RequireMeans found.now.sequenced.text.items found.now.sequenced.sequence.items found.now.constraints.items) Never (O.told out.old) (O.told out.new) (O.faults out.old) (O.faults out.new) result }
{
    match read_legal(alloc, found.sequenced.text.as_slice(), Mode::Original) {
        Ok(legal) => {
            report_breaks(
                alloc,
                &legal.program.names,
                &legal.numbers,
                found.sequenced.sequence.as_slice(),
                found.constraints.as_slice(),
                out,
            )
        }
        Err(stop) => Err(stop),
    }
}
