// The text of an event.

ghost use Rattle.std.specs.Prelude.{◌≡◌};
ghost use Rattle.ded_io.specs.Counts.{HasCause};
ghost use Rattle.ded_io.specs.Written.{Wrote};
ghost use Rattle.syn_event.specs.EventText.{event_text, call_event_text, one_text, two_text};

use crate::Event;
use ded_io::decimals::{put_number, put_signed};
use ded_io::{Sink, SinkError};

/// Appends the text of an event, without the end of its line: its letter and its numbers in decimal, one blank between them.
/// After an error a front of the text was appended. It takes no memory.
#[tactic(auto, using(ded_io::proofs::Writes::writes))]
pub fn show<K: Sink>(e: &Event, out: &mut K) -> Result<(), SinkError>
    ensures bytes { Wrote result (K.told out.old) (K.told out.new) (event_text e.now) }
    ensures cause { HasCause (K.faults out.old) (K.faults out.new) result }
{
    match *e {
        Event::R { c, e, i } => put_call(b"R ", c, e, i, out),
        Event::E { a } => put_one(b"E ", a, out),
        Event::S { a } => put_one(b"S ", a, out),
        Event::D { a, k } => put_two(b"D ", a, k, out),
        Event::C { c, e, i } => put_call(b"C ", c, e, i, out),
        Event::T { c, e, i } => put_call(b"T ", c, e, i, out),
        Event::F { c, e, i } => put_call(b"F ", c, e, i, out),
        Event::X { a } => put_one(b"X ", a, out),
        Event::B { t, x } => put_two(b"B ", t, x, out),
        Event::Z => out.put(b"Z"),
    }
}

// A letter with its blank, and the numbers of a call.
#[tactic(auto, using(ded_io::proofs::Writes::writes))]
fn put_call<K: Sink>(letter: &[u8], c: u32, e: u32, i: i32, out: &mut K) -> Result<(), SinkError>
    ensures bytes { Wrote result (K.told out.old) (K.told out.new) (call_event_text letter.now c e i) }
    ensures cause { HasCause (K.faults out.old) (K.faults out.new) result }
{
    out.put(letter)?;
    put_number(c as u64, out)?;
    out.put(b" ")?;
    put_number(e as u64, out)?;
    out.put(b" ")?;
    put_signed(i, out)
}

// A letter with its blank, and one number.
#[tactic(auto, using(ded_io::proofs::Writes::writes))]
fn put_one<K: Sink>(letter: &[u8], a: u32, out: &mut K) -> Result<(), SinkError>
    ensures bytes { Wrote result (K.told out.old) (K.told out.new) (one_text letter.now a) }
    ensures cause { HasCause (K.faults out.old) (K.faults out.new) result }
{
    out.put(letter)?;
    put_number(a as u64, out)
}

// A letter with its blank, and two numbers.
#[tactic(auto, using(ded_io::proofs::Writes::writes))]
fn put_two<K: Sink>(letter: &[u8], a: u32, b: u32, out: &mut K) -> Result<(), SinkError>
    ensures bytes { Wrote result (K.told out.old) (K.told out.new) (two_text letter.now a b) }
    ensures cause { HasCause (K.faults out.old) (K.faults out.new) result }
{
    out.put(letter)?;
    put_number(a as u64, out)?;
    out.put(b" ")?;
    put_number(b as u64, out)
}
