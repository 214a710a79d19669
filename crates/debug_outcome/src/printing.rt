//! The text of a program that was made, on the output.

ghost use Rattle.std.specs.Prelude.{◌≡◌};
ghost use Rattle.ada_tree.specs.PlainProgram.{plain_program};
ghost use Rattle.debug_outcome.specs.Coming.{Comes, Never};
ghost use Rattle.debug_outcome.specs.Printing.{printed_outcome};

use crate::files::TEXT_LIMIT;
use crate::{Refusal, Stop};
use ada_printer::{print, text_len};
use ada_tree::Program;
use ded_io::Sink;

/// Writes the text of a program, and answers 0, unless it is longer than a program that is run.
pub fn write_text<'w, K: Sink>(text: &Program, out: &mut K) -> Result<u8, Stop<'w>>
    ensures { Comes (λ o. o ≡ printed_outcome (plain_program text.now)) Never (K.told out.old) (K.told out.new) (K.faults out.old) (K.faults out.new) result }
{
    if text_len(text) > TEXT_LIMIT {
        return Err(Stop::Refused(Refusal::LongText { limit: TEXT_LIMIT }));
    }
    match print(text, out) {
        Ok(()) => Ok(0),
        Err(_) => Err(Stop::OutputFailed),
    }
}
