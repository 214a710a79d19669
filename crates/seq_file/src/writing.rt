// Writing a sequence file.

ghost use Rattle.std.specs.Prelude.{◌≡◌, ◌<◌};
ghost use Rattle.ded_io.specs.Counts.{HasCause};
ghost use Rattle.ded_io.specs.Written.{Wrote, each_text};
ghost use Rattle.seq_file.specs.Files.{AreFit, SeqReads, SeqText, header_line, header_end, event_line};

use super::lines::{original_entries, original_tasks};
use ada_tree::Names;
use ded_io::decimals::put_number;
use ded_io::{Sink, SinkError};
use syn_event::{Event, Numbers, name_of, show};

/// Appends a sequence file: the header of the program, and a line for each event, in order.
/// After an error a front of the file was appended. It takes no memory.
#[tactic(auto, using(ded_io::proofs::Writes::writes))]
pub fn write_seq<K: Sink>(
    events: &[Event],
    numbers: &Numbers,
    names: &Names,
    out: &mut K,
) -> Result<(), SinkError>
    ensures bytes { Wrote result (K.told out.old) (K.told out.new) (SeqText names.now numbers.now events.now) }
    ensures cause { HasCause (K.faults out.old) (K.faults out.new) result }
    ensures read_back { AreFit numbers.now events.now → SeqReads (SeqText names.now numbers.now events.now) numbers.now names.now events.now }
{
    put_header(numbers, names, out)?;
    put_events(events, out)
}

// Appends the first line: the format, and what stands behind it.
#[tactic(auto, using(ded_io::proofs::Writes::writes))]
fn put_header<K: Sink>(numbers: &Numbers, names: &Names, out: &mut K) -> Result<(), SinkError>
    ensures bytes { Wrote result (K.told out.old) (K.told out.new) (header_line names.now numbers.now) }
    ensures cause { HasCause (K.faults out.old) (K.faults out.new) result }
{
    out.put(b"ded-seq 1 ")?;
    put_program(numbers, names, out)
}

/// Appends the rest of a first line behind the format: the program's name, and how many tasks and entries the original has.
#[tactic(auto, using(ded_io::proofs::Writes::writes))]
pub(crate) fn put_program<K: Sink>(
    numbers: &Numbers,
    names: &Names,
    out: &mut K,
) -> Result<(), SinkError>
    ensures bytes { Wrote result (K.told out.old) (K.told out.new) (header_end names.now numbers.now) }
    ensures cause { HasCause (K.faults out.old) (K.faults out.new) result }
{
    out.put(name_of(names, numbers.main))?;
    out.put(b" ")?;
    put_number(original_tasks(&numbers.tasks), out)?;
    out.put(b" ")?;
    put_number(original_entries(&numbers.entries), out)?;
    out.put(b"\n")
}

/// Appends a line for each event.
pub(crate) fn put_events<K: Sink>(events: &[Event], out: &mut K) -> Result<(), SinkError>
    ensures bytes { Wrote result (K.told out.old) (K.told out.new) (each_text event_line events.now) }
    ensures cause { HasCause (K.faults out.old) (K.faults out.new) result }
{
    for event in events {
        match put_event(event, out) {
            Ok(()) => {}
            Err(error) => return Err(error),
        }
    }
    Ok(())
}

// Appends the line of an event.
#[tactic(auto, using(ded_io::proofs::Writes::writes))]
fn put_event<K: Sink>(event: &Event, out: &mut K) -> Result<(), SinkError>
    ensures bytes { Wrote result (K.told out.old) (K.told out.new) (event_line event.now) }
    ensures cause { HasCause (K.faults out.old) (K.faults out.new) result }
{
    show(event, out)?;
    out.put(b"\n")
}
