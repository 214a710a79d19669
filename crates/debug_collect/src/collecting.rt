//! The collecting text of a program, on the output.

ghost use Rattle.ada_tree.specs.PlainProgram.{plain_program};
ghost use Rattle.syn_event.specs.declared.numbering.Mode.TheVariants.{Original};
ghost use Rattle.syn_event.specs.Legal.{Legal};
ghost use Rattle.normal_laws.specs.existence.Laws.{IsLegalOriginal};
ghost use Rattle.debug_outcome.specs.Coming.{Comes, Never};
ghost use Rattle.debug_collect.specs.CollectOutcomes.{CollectsProgram};

use ada_tree::{Memory, Program, Types};
use collect_abort::collecting;
use debug_outcome::{Stop, write_text};
use ded_io::Sink;
use std::alloc::Global;
use syn_event::Numbers;

/// Writes the collecting text of a legal original with its types and numbers, and answers 0. A text that is longer than a program that is run is refused.
/// All of the text is made before any of it is put.
pub fn write_collect<'w, K: Sink>(
    alloc: Global,
    program: &Program,
    types: &Types,
    numbers: &Numbers,
    out: &mut K,
) -> Result<u8, Stop<'w>>
    requires legal { IsLegalOriginal (plain_program program.now) }
    requires own { Legal (plain_program program.now) types.now numbers.now Original }
    ensures { Comes (CollectsProgram (plain_program program.now) types.now numbers.now) Never (K.told out.old) (K.told out.new) (K.faults out.old) (K.faults out.new) result }
{
    match collecting(alloc, program, types, numbers) {
        Ok(text) => write_text(&text, out),
        Err(Memory) => Err(Stop::Memory),
    }
}
