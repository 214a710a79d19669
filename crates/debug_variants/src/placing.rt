// The text of one place of a sequence.

ghost use Rattle.std.specs.Prelude.{◌≡◌, ℕ, List, true, OnOk, option_copied};
ghost use Rattle.ded_io.specs.Counts.{HasCause};
ghost use Rattle.ded_io.specs.Written.{Wrote, ◌⧺◌, each_text};
ghost use Rattle.event_machine.specs.declared.Event as event;
ghost use Rattle.seq_file.specs.Files.{event_line};
ghost use Rattle.task_model.specs.Machine.{ProgramWithInputs};
ghost use Rattle.feasible.specs.Keeping.{StandsFor, is_feasible};
ghost use Rattle.divergence.specs.ViewText.{number_line};
ghost use Rattle.debug_variants.specs.VariantsOutcomes.{open_line, place_text};
ghost use Rattle.debug_variants.specs.inner.Placing.{PlaceComes};

use debug_outcome::Stop;
use ded_io::decimals::put_number;
use ded_io::{Sink, SinkError};
use event_machine::Event;
use feasible::Judge;
use race_variant::variants;
use std::alloc::Global;
use syn_event::{Numbers, show};

// Tells of the place of this number what can come next behind the events that the judge was given, but for `skip`, and which tasks are open there.
// The judge stands for what it stood for before.
pub(crate) fn tell_place<'w, K: Sink>(
    alloc: Global,
    judge: &mut Judge<'_>,
    numbers: &Numbers,
    number: u32,
    skip: Option<&Event>,
    out: &mut K,
) -> Result<(), Stop<'w>>
    requires feasible { is_feasible judge.old.verdict ≡ true }
    requires numbers { numbers.now ≡ judge.old.numbers }
    // for each list for which the judge stands
    ensures place { (setup : ProgramWithInputs) (events : List event.Event) → StandsFor setup events judge.old
        → PlaceComes setup judge.old.numbers judge.old.bound events (option_copied skip.entry) number (K.told out.old) (K.told out.new) (K.faults out.old) (K.faults out.new) result }
    ensures stands { (setup : ProgramWithInputs) (events : List event.Event) → StandsFor setup events judge.old → OnOk result (StandsFor setup events judge.new) }
    ensures same_numbers { judge.new.numbers ≡ judge.old.numbers }
    ensures bound { judge.new.bound ≡ judge.old.bound }
    ensures taken { judge.new.taken ≡ judge.old.taken }
{
    let mut found = Vec::new(alloc);
    let mut unsettled = Vec::new(alloc);
    match variants(alloc, judge, numbers, skip, &mut found, &mut unsettled) {
        Ok(()) => {}
        Err(_) => return Err(Stop::Memory),
    }
    match put_place(number, &found, &unsettled, out) {
        Ok(()) => Ok(()),
        Err(_) => Err(Stop::OutputFailed),
    }
}

// Writes the place of this number.
#[tactic(auto, using(ded_io::proofs::Writes::writes))]
fn put_place<K: Sink>(
    number: u32,
    found: &[Event],
    unsettled: &[u32],
    out: &mut K,
) -> Result<(), SinkError>
    ensures bytes { Wrote result (K.told out.old) (K.told out.new) (place_text number (record { found = found.now; unsettled = unsettled.now })) }
    ensures cause { HasCause (K.faults out.old) (K.faults out.new) result }
{
    put_numbered(b"place ", number as u64, out)?;
    put_events(found, out)?;
    put_open(unsettled, out)
}

// Writes a line for each event.
#[tactic(auto, using(ded_io::proofs::Members::members))]
fn put_events<K: Sink>(events: &[Event], out: &mut K) -> Result<(), SinkError>
    ensures bytes { Wrote result (K.told out.old) (K.told out.new) (each_text event_line events.now) }
    ensures cause { HasCause (K.faults out.old) (K.faults out.new) result }
{
    for event in events {
        match put_event(event, out) {
            Ok(()) => {}
            Err(error) => return Err(error),
        }
    }
    Ok(())
}

// Writes the line of an event.
#[tactic(auto, using(ded_io::proofs::Writes::writes))]
fn put_event<K: Sink>(event: &Event, out: &mut K) -> Result<(), SinkError>
    ensures bytes { Wrote result (K.told out.old) (K.told out.new) (event_line event.now) }
    ensures cause { HasCause (K.faults out.old) (K.faults out.new) result }
{
    show(event, out)?;
    out.put(b"\n")
}

// Writes a line for each open task.
#[tactic(auto, using(ded_io::proofs::Members::members))]
fn put_open<K: Sink>(tasks: &[u32], out: &mut K) -> Result<(), SinkError>
    ensures bytes { Wrote result (K.told out.old) (K.told out.new) (each_text open_line tasks.now) }
    ensures cause { HasCause (K.faults out.old) (K.faults out.new) result }
{
    for task in tasks {
        match put_numbered(b"open ", *task as u64, out) {
            Ok(()) => {}
            Err(error) => return Err(error),
        }
    }
    Ok(())
}

// Writes a word, a number and the end of the line.
#[tactic(auto, using(ded_io::proofs::Writes::writes))]
pub(crate) fn put_numbered<K: Sink>(word: &[u8], n: u64, out: &mut K) -> Result<(), SinkError>
    ensures bytes { Wrote result (K.told out.old) (K.told out.new) (number_line word.now n) }
    ensures cause { HasCause (K.faults out.old) (K.faults out.new) result }
{
    out.put(word)?;
    put_number(n, out)?;
    out.put(b"\n")
}
