// The command that tells what else can come at each place of a sequence of events.

ghost use Rattle.debug_outcome.specs.words.Commands.{name_as};
ghost use Rattle.debug_outcome.specs.words.Words.{AsksVariants};
ghost use Rattle.debug_outcome.specs.files.Giving.{IsShortJudge, inputs_in};
ghost use Rattle.debug_outcome.specs.Coming.{Comes};
ghost use Rattle.debug_outcome.specs.Traces.{HasLoads};
ghost use Rattle.debug_core.specs.Answers.{CallsFor, GrowsFor};
ghost use Rattle.debug_core.specs.VariantsMeaning.{VariantsMeans};

use crate::starting::read_start;
use debug_outcome::files::{JudgeFiles, load_judge};
use debug_outcome::words::JudgeWords;
use debug_outcome::{Stop, TracedFiles};
use debug_variants::report_variants;
use ded_io::Sink;
use std::alloc::Global;
use syn_event::Mode;

// Tells what else can come at each place of the sequence in a file, for the program in another with its inputs, and answers the status.
pub(crate) fn variants_command<'w, F: TracedFiles, O: Sink>(
    alloc: Global,
    asked: JudgeWords<'w>,
    files: &mut F,
    out: &mut O,
) -> Result<u8, Stop<'w>>
    ensures { HasLoads F.leads files.old files.new (λ loads. Comes (CallsFor (AsksVariants asked.entry.file.now (name_as asked.entry.inputs) asked.entry.sequence.now asked.entry.bound) (F.told files.old) (F.faults files.old) (F.faults files.new) loads) (GrowsFor (AsksVariants asked.entry.file.now (name_as asked.entry.inputs) asked.entry.sequence.now asked.entry.bound) (F.told files.old) (F.faults files.old) (F.faults files.new) loads) (O.told out.old) (O.told out.new) (O.faults out.old) (O.faults out.new) result) }
{
    match load_judge(alloc, asked, files) {
        Ok(found) => variants_files(alloc, &found, asked.bound, out),
        Err(stop) => Err(stop),
    }
}

// Tells the variants of the sequence of these files.
fn variants_files<'w, O: Sink>(
    alloc: Global,
    found: &JudgeFiles,
    bound: u64,
    out: &mut O,
) -> Result<u8, Stop<'w>>
    requires { IsShortJudge found.now }
    ensures { Comes (VariantsMeans found.now.start.text.items (inputs_in found.now.start) found.now.sequence.items bound) (VariantsMeans found.now.start.text.items (inputs_in found.now.start) found.now.sequence.items bound) (O.told out.old) (O.told out.new) (O.faults out.old) (O.faults out.new) result }
{
    match read_start(alloc, &found.start, Mode::Original) {
        Ok(start) => {
            report_variants(
                alloc,
                &start.legal.program,
                &start.legal.types,
                &start.legal.numbers,
                &start.inputs,
                found.sequence.as_slice(),
                bound,
                out,
            )
        }
        Err(stop) => Err(stop),
    }
}
