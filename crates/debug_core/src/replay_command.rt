// The command that writes the replay text of a program and a sequence.

ghost use Rattle.debug_outcome.specs.words.Words.{AsksReplay};
ghost use Rattle.debug_outcome.specs.files.Giving.{IsShortReplay};
ghost use Rattle.debug_outcome.specs.Coming.{Comes, Never};
ghost use Rattle.debug_outcome.specs.Traces.{HasLoads};
ghost use Rattle.debug_core.specs.Answers.{CallsFor};
ghost use Rattle.debug_core.specs.ReplayMeaning.{ReplayMeans};

use crate::reading::read_legal;
use debug_collect::replays::write_replay;
use debug_outcome::files::{ReplayFiles, load_replay};
use debug_outcome::words::ReplayWords;
use debug_outcome::{Stop, TracedFiles};
use ded_io::Sink;
use std::alloc::Global;
use syn_event::Mode;

// Writes the replay text of the program in a file and of the sequence in another, and answers the status.
pub(crate) fn replay_command<'w, F: TracedFiles, O: Sink>(
    alloc: Global,
    asked: ReplayWords<'w>,
    files: &mut F,
    out: &mut O,
) -> Result<u8, Stop<'w>>
    ensures { HasLoads F.leads files.old files.new (λ loads. Comes (CallsFor (AsksReplay asked.entry.file.now asked.entry.sequence.now) (F.told files.old) (F.faults files.old) (F.faults files.new) loads) Never (O.told out.old) (O.told out.new) (O.faults out.old) (O.faults out.new) result) }
{
    match load_replay(alloc, asked, files) {
        Ok(found) => replay_files(alloc, &found, out),
        Err(stop) => Err(stop),
    }
}

// Writes the replay text of the program and the sequence of these files.
fn replay_files<'w, O: Sink>(
    alloc: Global,
    found: &ReplayFiles,
    out: &mut O,
) -> Result<u8, Stop<'w>>
    requires { IsShortReplay found.now }
    ensures { Comes (ReplayMeans found.now.text.items found.now.sequence.items) Never (O.told out.old) (O.told out.new) (O.faults out.old) (O.faults out.new) result }
{
    match read_legal(alloc, found.text.as_slice(), Mode::Original) {
        Ok(legal) => {
            write_replay(
                alloc,
                &legal.program,
                &legal.types,
                &legal.numbers,
                found.sequence.as_slice(),
                out,
            )
        }
        Err(stop) => Err(stop),
    }
}
