//! Neighbours in a sequence of events.

ghost use Rattle.ada_tree.specs.PlainProgram.{plain_program};
ghost use Rattle.ada_tree.specs.WellPlaced.{IsWellPlaced};
ghost use Rattle.syn_event.specs.Legal.{Legal};

use ada_tree::Memory;
use case_form::Question;
use case_form::programs::{Known, put_fault, sequence_of};
use std::alloc::Global;
use syn_event::{Event, Mode, Numbers};
use syn_order::{OrderError, exchangeable};

/// `neighbours`: of the question's events, whether the one at this place, from 1, and the next can be exchanged; or the first up to them that is not
/// admitted, or the fault of the first bad line.
pub fn neighbours(
    alloc: Global,
    known: &Known,
    mode: Mode,
    place: u32,
    question: &Question<'_>,
    out: &mut String,
) -> Result<(), Memory>
    requires placed { IsWellPlaced (plain_program known.now.program) }
    requires legal { Legal (plain_program known.now.program) known.now.checked.types known.now.checked.numbers mode }
{
    question.ask(out)?;
    match sequence_of(alloc, known, mode, question.text()) {
        Ok(events) => put_neighbours(alloc, &events, &known.checked.numbers, place, out),
        Err(error) => put_fault(error, out),
    }
}

fn put_neighbours(
    alloc: Global,
    events: &[Event],
    numbers: &Numbers,
    place: u32,
    out: &mut String,
) -> Result<(), Memory> {
    if place == 0 || place == u32::MAX || place as usize >= events.len() {
        return Ok(out.push_str("no neighbours")?);
    }
    match exchangeable(alloc, events, numbers, place) {
        Ok(true) => out.push_str("yes")?,
        Ok(false) => out.push_str("no")?,
        Err(OrderError::NotAdmitted { at }) => write!(out, "NotAdmitted {at}")?,
        Err(OrderError::NoOrder { task }) => write!(out, "NoOrder {task}")?,
        Err(OrderError::Memory) => return Err(Memory),
    }
    Ok(())
}
