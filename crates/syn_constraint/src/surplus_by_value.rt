// The first event that is one too many, where the events that are counted are others for each value of `?`.

ghost use Rattle.std.specs.Prelude.{◌≡◌, ◌≤◌, ◌<◌, ◌^◌, ◌&&◌, ℤ, suc, true, false, Some, None, length, IfOk, if◌then◌else◌};
ghost use Rattle.std.specs.Ordering.{int_eq};
ghost use Rattle.syn_constraint.specs.declared.constraints.Constraint.TheVariants.{Most};
ghost use Rattle.syn_constraint.specs.Breaking.{IsFirstBreak};
ghost use Rattle.syn_constraint.specs.inner.Reaching.{reaches, asks_same};
ghost use Rattle.syn_constraint.specs.inner.Values.{number_at};
ghost use Rattle.syn_constraint.specs.inner.Lasts.{last_at};
ghost use Rattle.syn_constraint.specs.inner.Tallies.{live_at, is_open_at, count_now};

use super::by_value::ByValue;
use super::constraints::Pattern;
use super::lasts::Lasts;
use super::reach::{Reach, reach_of};
use ada_tree::Memory;
use std::alloc::Global;
use syn_event::Event;

/// For each value, how many events were counted in a window, and the place of the last of them. They count for the window that is open only where that
/// place is behind the last event that closed.
#[derive(Drop)]
pub(crate) struct Tallies {
    counts: ByValue,
    places: ByValue,
}

/// The first place whose event is counted, though since an event that opens the limit is reached, and none has closed, for some value of `?`.
pub(crate) fn first_surplus_by_value(
    alloc: Global,
    limit: u32,
    counted: &Pattern,
    opens: &Pattern,
    closes: &Pattern,
    events: &[Event],
) -> Result<Option<u32>, Memory>
    requires varied { asks_same counted.now ≡ true }
    requires short { length events.now < 2 ^ 32 }
    ensures { IfOk result (λ first. IsFirstBreak (Most limit counted.now opens.now closes.now) events.now first) }
{
    let mut opened = Lasts::new(alloc)?;
    let mut closed = Lasts::new(alloc)?;
    let mut tallies = no_tallies(alloc)?;
    let mut place: u32 = 0;
    for event in events {
        place += 1;
        closed.note(reach_of(closes, event), place)?;
        let count = count_more(
            &mut tallies,
            &opened,
            &closed,
            reach_of(counted, event),
            place,
        )?;
        if limit < count {
            return Ok(Some(place));
        }
        opened.note(reach_of(opens, event), place)?;
    }
    Ok(None)
}

fn no_tallies(alloc: Global) -> Result<Tallies, Memory>
    ensures { IfOk result (λ made. (value : ℤ) → number_at made.places value ≡ 0) }
{
    let counts = ByValue::new(alloc)?;
    let places = ByValue::new(alloc)?;
    Ok(Tallies { counts, places })
}

// Counts the event at the place for the one value that it is counted at, and gives how many there are in the window; 0 where no window is open.
fn count_more(
    tallies: &mut Tallies,
    opened: &Lasts,
    closed: &Lasts,
    reach: Reach,
    place: u32,
) -> Result<u32, Memory>
    requires single { reaches reach None ≡ false }
    requires room { (value : ℤ) → live_at tallies.old closed.now value < place }
    ensures count { IfOk result (λ count. count ≡ count_now tallies.old opened.now closed.now reach) }
    ensures live { IfOk result (λ _. (value : ℤ) → last_at opened.now (Some value) < place
        → live_at tallies.new closed.now value ≡ (if reaches reach (Some value) && is_open_at opened.now closed.now value then suc (live_at tallies.old closed.now value) else live_at tallies.old closed.now value)) }
    ensures places { IfOk result (λ _. (value : ℤ) → number_at tallies.old.places value ≤ place → number_at tallies.new.places value ≤ place) }
{
    match reach {
        Reach::At(value) => if is_open(opened, closed, value) {
            let count = live(tallies, closed, value) + 1;
            put(tallies, value, count, place)?;
            Ok(count)
        } else {
            Ok(0)
        },
        Reach::Nowhere => Ok(0),
        Reach::Everywhere => Ok(0),
    }
}

fn is_open(opened: &Lasts, closed: &Lasts, value: i64) -> bool
    ensures { result ≡ is_open_at opened.now closed.now value }
{
    let last = opened.at(value);
    0 < last && closed.at(value) <= last
}

// How many events were counted in the window that is open at the value.
fn live(tallies: &Tallies, closed: &Lasts, value: i64) -> u32
    ensures { result ≡ live_at tallies.now closed.now value }
{
    if closed.at(value) < tallies.places.at(value) {
        tallies.counts.at(value)
    } else {
        0
    }
}

fn put(tallies: &mut Tallies, value: i64, count: u32, place: u32) -> Result<(), Memory>
    ensures counts { IfOk result (λ _. (other : ℤ) → number_at tallies.new.counts other ≡ (if int_eq value other then count else number_at tallies.old.counts other)) }
    ensures places { IfOk result (λ _. (other : ℤ) → number_at tallies.new.places other ≡ (if int_eq value other then place else number_at tallies.old.places other)) }
{
    tallies.counts.set(value, count)?;
    tallies.places.set(value, place)
}
