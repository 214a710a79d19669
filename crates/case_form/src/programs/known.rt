//! Programs that meet the static rules, and what their texts tell by themselves.

ghost use Rattle.std.specs.Prelude.{IfOk, IfSome};
ghost use Rattle.ada_tree.specs.PlainProgram.{plain_program};
ghost use Rattle.ada_tree.specs.WellPlaced.{IsWellPlaced};
ghost use Rattle.syn_event.specs.Legal.{Legal};

use crate::programs::reading::program_of;
use ada_check::{CheckError, Checked, check};
use ada_parser::ReadError;
use ada_tree::{Expr, Memory, Program, Stmt, StmtKind, Types};
use ada_types::{TypeError, types_of};
use std::alloc::Global;
use syn_event::Mode;

/// A program that meets the static rules of any text, with what is known of it.
#[derive(Drop)]
pub struct Known {
    /// The tree.
    pub program: Program,
    /// Its types and numbers.
    pub checked: Checked,
}

/// The program of a text that meets the static rules by a mode, if it does.
pub fn known_of(alloc: Global, text: &[u8], mode: Mode) -> Result<Option<Known>, Memory>
    ensures placed { IfOk result (λ found. IfSome found (λ known. IsWellPlaced (plain_program known.program))) }
    ensures legal { IfOk result (λ found. IfSome found (λ known. Legal (plain_program known.program) known.checked.types known.checked.numbers mode)) }
{
    match program_of(alloc, text) {
        Ok(program) => match check(alloc, &program, mode) {
            Ok(checked) => Ok(Some(Known { program, checked })),
            Err(CheckError::Memory) => Err(Memory),
            Err(_) => Ok(None),
        },
        Err(ReadError::Memory) => Err(Memory),
        Err(_) => Ok(None),
    }
}

/// What the last statement of a program assigns, if it is an assignment.
pub fn assigned(program: &Program) -> Option<&Expr> {
    match program.body.stmts.last() {
        Some(
            Stmt {
                kind: StmtKind::Assign { value, .. },
                ..
            },
        ) => Some(value),
        _ => None,
    }
}

/// The types of a text, if it is a program that has types.
pub fn types_in(alloc: Global, text: &[u8]) -> Result<Option<Types>, Memory> {
    match program_of(alloc, text) {
        Ok(program) => match types_of(alloc, &program) {
            Ok(types) => Ok(Some(types)),
            Err(TypeError::Memory) => Err(Memory),
            Err(_) => Ok(None),
        },
        Err(ReadError::Memory) => Err(Memory),
        Err(_) => Ok(None),
    }
}
