// The command that writes a sequence in the other format.

ghost use Rattle.debug_outcome.specs.words.Words.{AsksMigrate};
ghost use Rattle.debug_outcome.specs.files.Giving.{IsShortReplay};
ghost use Rattle.debug_outcome.specs.Coming.{Comes, Never};
ghost use Rattle.debug_outcome.specs.Traces.{HasLoads};
ghost use Rattle.debug_core.specs.Answers.{CallsFor};
ghost use Rattle.debug_core.specs.MigrateMeaning.{MigrateMeans};

use crate::reading::read_legal;
use debug_outcome::files::{ReplayFiles, load_replay};
use debug_outcome::words::ReplayWords;
use debug_outcome::{Stop, TracedFiles};
use debug_sequence::migrate;
use ded_io::Sink;
use std::alloc::Global;
use syn_event::Mode;

// Writes the sequence in a file in the other format, for the program in another, and answers the status.
pub(crate) fn migrate_command<'w, F: TracedFiles, O: Sink>(
    alloc: Global,
    asked: ReplayWords<'w>,
    files: &mut F,
    out: &mut O,
) -> Result<u8, Stop<'w>>
    ensures { HasLoads F.leads files.old files.new (λ loads. Comes (CallsFor (AsksMigrate asked.entry.file.now asked.entry.sequence.now) (F.told files.old) (F.faults files.old) (F.faults files.new) loads) Never (O.told out.old) (O.told out.new) (O.faults out.old) (O.faults out.new) result) }
{
    match load_replay(alloc, asked, files) {
        Ok(found) => migrate_files(alloc, &found, out),
        Err(stop) => Err(stop),
    }
}

// Writes the sequence of these files in the other format.
fn migrate_files<'w, O: Sink>(
    alloc: Global,
    found: &ReplayFiles,
    out: &mut O,
) -> Result<u8, Stop<'w>>
    requires { IsShortReplay found.now }
    ensures { Comes (MigrateMeans found.now.text.items found.now.sequence.items) Never (O.told out.old) (O.told out.new) (O.faults out.old) (O.faults out.new) result }
{
    match read_legal(alloc, found.text.as_slice(), Mode::Original) {
        Ok(legal) => {
            migrate(
                alloc,
                &legal.program.names,
                &legal.numbers,
                found.sequence.as_slice(),
                out,
            )
        }
        Err(stop) => Err(stop),
    }
}
