// The first event that is one too many, where the events that are counted are the same for each value of `?`.

ghost use Rattle.std.specs.Prelude.{◌≡◌, ◌<◌, ◌+◌, ◌-◌, ◌^◌, ◌++◌, ◌&&◌, ◌∷◌, [], true, false, None, length, slice_get, option_copied, IfOk, if◌then◌else◌};
ghost use Rattle.syn_constraint.specs.declared.constraints.Constraint.TheVariants.{Most};
ghost use Rattle.syn_constraint.specs.Breaking.{IsFirstBreak};
ghost use Rattle.syn_constraint.specs.inner.Reaching.{reaches, asks_same};
ghost use Rattle.syn_constraint.specs.inner.Openings.{kept_by, is_over, is_over_at, IsClosedTest, IsPassed, PassesClosed};

use super::constraints::Pattern;
use super::lasts::Lasts;
use super::reach::{Reach, reach_of};
use ada_tree::Memory;
use std::alloc::Global;
use syn_event::Event;

/// An event that opens: at which values, its place, and how many events were counted up to it.
#[derive(Clone, Copy)]
pub(crate) struct Opening {
    reach: Reach,
    place: u32,
    counted: u32,
}

/// The first place whose event is counted, though since an event that opens the limit is reached, and none has closed, for some value of `?`.
///
/// Each event that opens is kept. The earliest that is not closed has the most events behind it, and those that are closed are passed over for good.
pub(crate) fn first_surplus(
    alloc: Global,
    limit: u32,
    counted: &Pattern,
    opens: &Pattern,
    closes: &Pattern,
    events: &[Event],
) -> Result<Option<u32>, Memory>
    requires alike { asks_same counted.now ≡ false }
    requires short { length events.now < 2 ^ 32 }
    ensures { IfOk result (λ first. IsFirstBreak (Most limit counted.now opens.now closes.now) events.now first) }
{
    let mut closed = Lasts::new(alloc)?;
    let mut openings = Vec::new(alloc);
    let mut oldest = 0;
    let mut count: u32 = 0;
    let mut place: u32 = 0;
    for event in events {
        place += 1;
        closed.note(reach_of(closes, event), place)?;
        let counts = is_everywhere(reach_of(counted, event));
        count = one_more_if(count, counts);
        oldest = pass_closed(&openings, &closed, oldest, limit, count);
        if is_surplus(counts, &openings, oldest, limit, count) {
            return Ok(Some(place));
        }
        let opening = Opening {
            reach: reach_of(opens, event),
            place,
            counted: count,
        };
        keep(&mut openings, opening)?;
    }
    Ok(None)
}

fn is_everywhere(reach: Reach) -> bool
    ensures { result ≡ reaches reach None }
{
    matches!(reach, Reach::Everywhere)
}

fn one_more_if(count: u32, counts: bool) -> u32
    requires { count < 2 ^ 32 - 1 }
    ensures { result ≡ count + (if counts then 1 else 0) }
{
    if counts { count + 1 } else { count }
}

// The first place of the list, from the oldest on, whose opening has no more than the limit behind it, or is not closed.
fn pass_closed(openings: &[Opening], closed: &Lasts, oldest: usize, limit: u32, count: u32) -> usize
    ensures { PassesClosed openings.now closed.now limit count oldest result }
{
    let mut next = oldest;
    while is_passed(openings, closed, next, limit, count) {
        next += 1;
    }
    next
}

// Whether the list has an opening at the place that is closed and has more than the limit behind it.
fn is_passed(openings: &[Opening], closed: &Lasts, next: usize, limit: u32, count: u32) -> bool
    ensures passed { IsPassed openings.now closed.now limit count next result }
    ensures within { result ≡ true → next < length openings.now }
{
    match opening_at(openings, next) {
        Some(opening) => is_over(opening, limit, count) && is_closed(opening, closed),
        None => false,
    }
}

// Whether the event is counted and the oldest opening has more than the limit behind it.
fn is_surplus(counts: bool, openings: &[Opening], oldest: usize, limit: u32, count: u32) -> bool
    ensures { result ≡ (counts && is_over_at openings.now limit count oldest) }
{
    counts && is_over_at(openings, oldest, limit, count)
}

// Whether the list has an opening at the place with more than the limit behind it.
fn is_over_at(openings: &[Opening], next: usize, limit: u32, count: u32) -> bool
    ensures { result ≡ is_over_at openings.now limit count next }
{
    match opening_at(openings, next) {
        Some(opening) => is_over(opening, limit, count),
        None => false,
    }
}

fn opening_at(openings: &[Opening], next: usize) -> Option<&Opening>
    ensures { option_copied result ≡ slice_get openings.now next }
{
    openings.get(next)
}

fn is_over(opening: &Opening, limit: u32, count: u32) -> bool
    ensures { result ≡ is_over limit count opening.now }
{
    opening.counted < count.saturating_sub(limit)
}

// Whether the opening is closed at each of its values.
fn is_closed(opening: &Opening, closed: &Lasts) -> bool
    ensures { IsClosedTest closed.now opening.now result }
{
    match closed.longest_ago(opening.reach) {
        Some(place) => opening.place < place,
        None => true,
    }
}

// Keeps an event, where it opens at some value.
fn keep(openings: &mut Vec<Opening>, opening: Opening) -> Result<(), Memory>
    ensures { IfOk result (λ _. openings.new.items ≡ openings.old.items ++ kept_by opening.reach opening) }
{
    match opening.reach {
        Reach::Nowhere => Ok(()),
        Reach::Everywhere => add(openings, opening),
        Reach::At(_) => add(openings, opening),
    }
}

fn add(openings: &mut Vec<Opening>, opening: Opening) -> Result<(), Memory>
    ensures { IfOk result (λ _. openings.new.items ≡ openings.old.items ++ opening ∷ []) }
{
    openings.push(opening)?;
    Ok(())
}
