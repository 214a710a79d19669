// Reading the program that a text says, and asking the static rules of it.

ghost use Rattle.std.specs.Prelude.{◌<◌, ◌-◌, ◌^◌, length, IfOk, IfErr};
ghost use Rattle.ada_tree.specs.PlainProgram.{plain_program};
ghost use Rattle.ada_tree.specs.WellPlaced.{IsWellPlaced};
ghost use Rattle.ada_parser.specs.Exactly.{IsRead};
ghost use Rattle.debug_outcome.specs.Coming.{Stops};
ghost use Rattle.debug_core.specs.LegalTexts.{IsLegalText, IsRefusedText};
ghost use Rattle.debug_core.specs.TextFaults.{IsUnreadableText};

use crate::rule_fault::rule_failure;
use crate::text_fault::text_failure;
use ada_check::{Checked, check};
use ada_parser::read;
use ada_tree::{Program, Types};
use debug_outcome::Stop;
use std::alloc::Global;
use syn_event::{Mode, Numbers};

/// A program that meets all static rules, with its types and numbers.
#[derive(Drop)]
pub(crate) struct LegalProgram {
    pub(crate) program: Program,
    pub(crate) types: Types,
    pub(crate) numbers: Numbers,
}

// The program that a text of the language says.
pub(crate) fn read_text<'w>(alloc: Global, text: &[u8]) -> Result<Program, Stop<'w>>
    requires { length text.now < 2 ^ 32 - 1 }
    ensures program { IfOk result (λ program. IsRead text.now (plain_program program)) }
    ensures placed { IfOk result (λ program. IsWellPlaced (plain_program program)) }
    ensures cause { IfErr result (Stops (IsUnreadableText text.now)) }
{
    match read(alloc, text) {
        Ok(program) => Ok(program),
        Err(error) => Err(text_failure(text, error)),
    }
}

// The program that a text of the language says, if it meets all static rules by the mode.
pub(crate) fn read_legal<'w>(
    alloc: Global,
    text: &[u8],
    mode: Mode,
) -> Result<LegalProgram, Stop<'w>>
    requires { length text.now < 2 ^ 32 - 1 }
    ensures program { IfOk result (λ legal. IsLegalText text.now mode (plain_program legal.program) legal.types legal.numbers) }
    ensures cause { IfErr result (Stops (IsRefusedText text.now mode)) }
{
    let program = match read_text(alloc, text) {
        Ok(program) => program,
        Err(stop) => return Err(stop),
    };
    match check(alloc, &program, mode) {
        Ok(Checked { types, numbers }) => Ok(LegalProgram {
            program,
            types,
            numbers,
        }),
        Err(error) => Err(rule_failure(text, error)),
    }
}
