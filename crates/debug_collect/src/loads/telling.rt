// The lines of LOAD on the output.

ghost use Rattle.std.specs.Prelude.{◌≡◌};
ghost use Rattle.ded_io.specs.Counts.{HasCause};
ghost use Rattle.ded_io.specs.Written.{Wrote};
ghost use Rattle.debug_outcome.specs.Coming.{Comes, Never};
ghost use Rattle.debug_collect.specs.loads.LoadOutcomes.{events_line, first_line, load_text, replayed_line, verdict_line};
ghost use Rattle.debug_collect.specs.loads.inner.Loaded.{outcome_of};

use crate::loads::loading::{Figures, Loaded};
use debug_outcome::Stop;
use ded_io::decimals::put_number;
use ded_io::{Sink, SinkError};
use feasible::Verdict;

// Writes the lines, and answers the status.
pub(crate) fn put_loaded<'w, K: Sink>(n: u32, loaded: &Loaded, out: &mut K) -> Result<u8, Stop<'w>>
    ensures { Comes (λ o. o ≡ outcome_of n loaded.now) Never (K.told out.old) (K.told out.new) (K.faults out.old) (K.faults out.new) result }
{
    match loaded {
        Loaded::Cut(status) => match put_first(n, out) {
            Ok(()) => Ok(*status),
            Err(_) => Err(Stop::OutputFailed),
        },
        Loaded::Whole(figures) => match put_all(n, *figures, out) {
            Ok(()) => Ok(0),
            Err(_) => Err(Stop::OutputFailed),
        },
    }
}

// Writes all four lines.
#[tactic(auto, using(ded_io::proofs::Writes::writes))]
fn put_all<K: Sink>(n: u32, figures: Figures, out: &mut K) -> Result<(), SinkError>
    ensures bytes { Wrote result (K.told out.old) (K.told out.new) (load_text n figures.events figures.verdict figures.replayed) }
    ensures cause { HasCause (K.faults out.old) (K.faults out.new) result }
{
    put_first(n, out)?;
    put_events(figures.events, out)?;
    out.put(verdict_line(figures.verdict))?;
    put_replayed(figures.replayed, out)
}

// Writes the number of producers.
#[tactic(auto, using(ded_io::proofs::Writes::writes))]
fn put_first<K: Sink>(n: u32, out: &mut K) -> Result<(), SinkError>
    ensures bytes { Wrote result (K.told out.old) (K.told out.new) (first_line n) }
    ensures cause { HasCause (K.faults out.old) (K.faults out.new) result }
{
    out.put(b"load ")?;
    put_number(n as u64, out)?;
    out.put(b"\n")
}

// Writes the number of collected events.
#[tactic(auto, using(ded_io::proofs::Writes::writes))]
fn put_events<K: Sink>(count: u64, out: &mut K) -> Result<(), SinkError>
    ensures bytes { Wrote result (K.told out.old) (K.told out.new) (events_line count) }
    ensures cause { HasCause (K.faults out.old) (K.faults out.new) result }
{
    out.put(b"events ")?;
    put_number(count, out)?;
    out.put(b"\n")
}

// Writes the number of events of the run of the replay text.
#[tactic(auto, using(ded_io::proofs::Writes::writes))]
fn put_replayed<K: Sink>(count: u64, out: &mut K) -> Result<(), SinkError>
    ensures bytes { Wrote result (K.told out.old) (K.told out.new) (replayed_line count) }
    ensures cause { HasCause (K.faults out.old) (K.faults out.new) result }
{
    out.put(b"replay ")?;
    put_number(count, out)?;
    out.put(b"\n")
}

// The line of a verdict.
fn verdict_line(verdict: Verdict) -> &'static [u8]
    ensures { result.now ≡ verdict_line verdict }
{
    match verdict {
        Verdict::Feasible => b"judge feasible\n",
        Verdict::Infeasible { .. } => b"judge infeasible\n",
        Verdict::Unsettled { .. } => b"judge unsettled\n",
    }
}
