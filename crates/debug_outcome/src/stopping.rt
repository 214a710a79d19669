//! Why a command stops, and how that is told on the error output.

ghost use Rattle.std.specs.Prelude.{◌≡◌};
ghost use Rattle.debug_outcome.specs.Coming.{Tells};
ghost use Rattle.debug_outcome.specs.Refusals.{memory_line};

use crate::refusal::Refusal;
use crate::telling::put_refusal;
use ded_io::Sink;

// The statuses where an output cannot be written, and where there was no memory.
const OUTPUT_FAILED: u8 = 7;

const OUT_OF_MEMORY: u8 = 9;

/// Why a command stops before its text is written, or before all of it is.
#[derive(Clone, Copy)]
pub enum Stop<'w> {
    /// It is refused.
    Refused(Refusal<'w>),
    /// The output cannot be written.
    OutputFailed,
    /// There was no memory.
    Memory,
}

/// Tells on the error output why a command stops, and answers the status with which the program ends: that of the refusal, 9 for want
/// of memory, and 7 where a write failed. Behind a write of the output that failed nothing is put.
pub fn tell<E: Sink>(stop: Stop<'_>, err: &mut E) -> u8
    ensures { Tells stop.entry (E.told err.old) (E.told err.new) (E.faults err.old) (E.faults err.new) result }
{
    match stop {
        Stop::Refused(refusal) => tell_refusal(refusal, err),
        Stop::OutputFailed => OUTPUT_FAILED,
        Stop::Memory => tell_memory(err),
    }
}

// Tells a refusal.
#[tactic(auto, unfolding(ded_io::specs::Written::Wrote))]
fn tell_refusal<E: Sink>(refusal: Refusal<'_>, err: &mut E) -> u8
    ensures { Tells (Stop.Refused refusal.entry) (E.told err.old) (E.told err.new) (E.faults err.old) (E.faults err.new) result }
{
    match put_refusal(refusal, err) {
        Ok(()) => refusal.status(),
        Err(_) => OUTPUT_FAILED,
    }
}

// Tells that there was no memory.
#[tactic(auto, unfolding(ded_io::specs::Written::Wrote))]
fn tell_memory<E: Sink>(err: &mut E) -> u8
    ensures { Tells Stop.Memory (E.told err.old) (E.told err.new) (E.faults err.old) (E.faults err.new) result }
{
    match err.put(memory_line()) {
        Ok(()) => OUT_OF_MEMORY,
        Err(_) => OUTPUT_FAILED,
    }
}

// The line where there was no memory.
#[tactic(auto, unfolding(crate::specs::Refusals::memory_line))]
fn memory_line() -> &'static [u8]
    ensures { result.now ≡ memory_line }
{
    b"ded: out of memory\n"
}
