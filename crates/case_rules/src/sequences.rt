//! Sequences of events of a program.

ghost use Rattle.ada_tree.specs.PlainProgram.{plain_program};
ghost use Rattle.ada_tree.specs.WellPlaced.{IsWellPlaced};
ghost use Rattle.syn_event.specs.Legal.{Legal};

use crate::numbering::put_event;
use ada_tree::Memory;
use case_form::Question;
use case_form::programs::{Known, put_fault, sequence_of};
use std::alloc::Global;
use syn_event::{Event, Mode};

// Of more events only the first and the last are written.
const MOST: usize = 10;

/// `sequence`: how many events the question's bytes are and which, or the fault of the first bad line.
pub fn sequence(
    alloc: Global,
    known: &Known,
    mode: Mode,
    question: &Question<'_>,
    out: &mut String,
) -> Result<(), Memory>
    requires placed { IsWellPlaced (plain_program known.now.program) }
    requires legal { Legal (plain_program known.now.program) known.now.checked.types known.now.checked.numbers mode }
{
    question.ask(out)?;
    match sequence_of(alloc, known, mode, question.text()) {
        Ok(events) => put_events(alloc, &events, out),
        Err(error) => put_fault(error, out),
    }
}

fn put_events(alloc: Global, events: &[Event], out: &mut String) -> Result<(), Memory> {
    let count = events.len();
    write!(out, "{count} events")?;
    for (place, event) in events.iter().enumerate() {
        if count <= MOST || place == 0 || place.saturating_add(1) == count {
            out.push_str("; ")?;
            put_event(alloc, *event, out)?;
        }
    }
    Ok(())
}
