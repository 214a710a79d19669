//! Sequences of events of a program.

ghost use Rattle.std.specs.Prelude.{◌<◌, ◌-◌, ◌^◌, IfOk, vec_len};
ghost use Rattle.ada_tree.specs.PlainProgram.{plain_program};
ghost use Rattle.ada_tree.specs.WellPlaced.{IsWellPlaced};
ghost use Rattle.seq_file.specs.Files.{NothingFollowsEnd};
ghost use Rattle.syn_event.specs.Legal.{Legal};

use crate::programs::known::Known;
use ada_tree::Memory;
use seq_file::{SeqError, read_seq};
use std::alloc::Global;
use syn_event::{Event, Mode};

/// The events of a sequence's bytes; past 32 bits want of memory.
pub fn sequence_of(
    alloc: Global,
    known: &Known,
    mode: Mode,
    bytes: &[u8],
) -> Result<Vec<Event>, SeqError>
    requires placed { IsWellPlaced (plain_program known.now.program) }
    requires legal { Legal (plain_program known.now.program) known.now.checked.types known.now.checked.numbers mode }
    ensures end { IfOk result (λ events. NothingFollowsEnd events.items) }
    ensures few { IfOk result (λ events. vec_len events < 2 ^ 32 - 1) }
{
    if bytes.len() < 0xFFFF_FFFF {
        read_seq(alloc, bytes, &known.checked.numbers, &known.program.names)
    } else {
        Err(SeqError::Memory)
    }
}

/// The name of a fault, and its line or limit.
pub fn put_fault(error: SeqError, out: &mut String) -> Result<(), Memory> {
    match error {
        SeqError::BadLine { line } => write!(out, "BadLine {line}")?,
        SeqError::OtherProgram { line } => write!(out, "OtherProgram {line}")?,
        SeqError::BadNumber { line } => write!(out, "BadNumber {line}")?,
        SeqError::AfterEnd { line } => write!(out, "AfterEnd {line}")?,
        SeqError::TooMany { limit } => write!(out, "TooMany {limit}")?,
        SeqError::Memory => return Err(Memory),
    }
    Ok(())
}
