// The command that goes on from a sequence of events.

ghost use Rattle.std.specs.Prelude.{◌≤◌, length};
ghost use Rattle.debug_outcome.specs.words.Commands.{name_as, source_as};
ghost use Rattle.debug_outcome.specs.words.Words.{AsksContinue};
ghost use Rattle.debug_outcome.specs.files.Giving.{IsShortContinue, given_as, inputs_in};
ghost use Rattle.debug_outcome.specs.files.Wanting.{original_bytes};
ghost use Rattle.debug_outcome.specs.Coming.{Comes, Never};
ghost use Rattle.debug_outcome.specs.Traces.{HasLoads};
ghost use Rattle.debug_core.specs.Answers.{CallsFor};
ghost use Rattle.debug_core.specs.ContinueMeaning.{ContinueMeans};

use crate::chosen_events::{Most, go_on_under};
use crate::starting::read_start;
use debug_outcome::files::{ContinueFiles, load_continue};
use debug_outcome::words::ContinueWords;
use debug_outcome::{Stop, TracedFiles};
use ded_io::Sink;
use std::alloc::Global;
use syn_event::Mode;

// Goes on from the sequence in a file by choices, for the program in another with its inputs, and answers the status.
pub(crate) fn continue_command<'w, F: TracedFiles, O: Sink>(
    alloc: Global,
    asked: ContinueWords<'w>,
    files: &mut F,
    out: &mut O,
) -> Result<u8, Stop<'w>>
    ensures { HasLoads F.leads files.old files.new (λ loads. Comes (CallsFor (AsksContinue asked.entry.judged.file.now (name_as asked.entry.judged.inputs) asked.entry.judged.sequence.now (source_as asked.entry.choices) asked.entry.count asked.entry.judged.bound) (F.told files.old) (F.faults files.old) (F.faults files.new) loads) Never (O.told out.old) (O.told out.new) (O.faults out.old) (O.faults out.new) result) }
{
    let most = Most {
        count: asked.count,
        bound: asked.judged.bound,
    };
    match load_continue(alloc, asked, files) {
        Ok(found) => continue_files(alloc, &found, most, out),
        Err(stop) => Err(stop),
    }
}

// Goes on from the sequence of these files.
fn continue_files<'w, O: Sink>(
    alloc: Global,
    found: &ContinueFiles,
    most: Most,
    out: &mut O,
) -> Result<u8, Stop<'w>>
    requires short { IsShortContinue found.now }
    requires within { length found.now.judged.start.text.items ≤ original_bytes }
    ensures { Comes (ContinueMeans found.now.judged.start.text.items (inputs_in found.now.judged.start) found.now.judged.sequence.items (given_as found.now.choices) most.count most.bound) Never (O.told out.old) (O.told out.new) (O.faults out.old) (O.faults out.new) result }
{
    match read_start(alloc, &found.judged.start, Mode::Original) {
        Ok(start) => {
            go_on_under(
                alloc,
                &start,
                found.judged.sequence.as_slice(),
                &found.choices,
                most,
                out,
            )
        }
        Err(stop) => Err(stop),
    }
}
