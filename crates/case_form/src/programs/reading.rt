//! The program of a text that is short enough for 32 bits, and the places of faults.

ghost use Rattle.std.specs.Prelude.{IfOk};
ghost use Rattle.ada_tree.specs.PlainProgram.{plain_program};
ghost use Rattle.ada_tree.specs.WellPlaced.{IsWellPlaced};

use crate::questions::Question;
use ada_lexer::{LexError, LineCol, line_col};
use ada_parser::{ReadError, read};
use ada_tree::{Memory, Program};
use std::alloc::Global;

/// The program of a text, or why it is none.
pub fn program_of(alloc: Global, text: &[u8]) -> Result<Program, ReadError>
    ensures { IfOk result (λ p. IsWellPlaced (plain_program p)) }
{
    if text.len() < 0xFFFF_FFFF {
        read(alloc, text)
    } else {
        Err(ReadError::Memory)
    }
}

/// The line and the column of a place.
pub fn place_of(text: &[u8], at: u32) -> LineCol {
    if text.len() < 0xFFFF_FFFF {
        line_col(text, at)
    } else {
        LineCol { line: 0, col: 0 }
    }
}

/// Writes a question with a mark at the fault of its tokens.
pub fn answer_fault(
    question: &Question<'_>,
    fault: LexError,
    out: &mut String,
) -> Result<(), Memory> {
    let (answer, at) = match fault {
        LexError::BadByte { at } => ("BadByte", at),
        LexError::OpenString { at } => ("OpenString", at),
        LexError::BadNumber { at } => ("BadNumber", at),
        LexError::TooLong { at } => ("TooLong", at),
        LexError::Memory => return Err(Memory),
    };
    question.answer_at(out, answer, at)?;
    Ok(())
}

/// Answers why the question's text is no program, at the place.
pub fn answer_refused(
    question: &Question<'_>,
    error: ReadError,
    out: &mut String,
) -> Result<(), Memory> {
    match error {
        ReadError::Lex(fault) => answer_fault(question, fault, out),
        ReadError::Syntax { at } => Ok(question.answer_at(out, "Syntax", at)?),
        ReadError::TooDeep { at } => Ok(question.answer_at(out, "TooDeep", at)?),
        ReadError::Memory => Err(Memory),
    }
}
