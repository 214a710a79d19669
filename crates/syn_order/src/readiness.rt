// Whether an event is ready.

ghost use Rattle.std.specs.Prelude.{◌≡◌, ◌↔◌, ◌<◌, ◌==◌, ◌||◌, ℕ, true, false, Some, length, map, IsTrue};
ghost use Rattle.event_machine.specs.Soundness.{times};
ghost use Rattle.event_machine.specs.Worlds.{is_last};
ghost use Rattle.event_machine.specs.progress.Known.{touches};
ghost use Rattle.syn_event.specs.Numbering.{owner_of};
ghost use Rattle.syn_order.specs.Orders.{first, IsReady};
ghost use Rattle.syn_order.specs.inner.Callers.{AreCallers};
ghost use Rattle.syn_order.specs.inner.Places.{left};

use crate::followed::{Followed, callers_of, innermost_or};
use crate::places::first_left;
use event_machine::Event;
use syn_event::Numbers;

/// Whether the event is ready: admitted, and the first that is left of each task that it touches.
pub(crate) fn is_ready(
    followed: &Followed,
    lists: &[Vec<Event>],
    places: &[usize],
    e: &Event,
    numbers: &Numbers,
) -> bool
    requires callers { AreCallers followed.now.progress (map (λ v. v.items) followed.now.callers.items) }
    ensures { IsTrue result ↔ IsReady (owner_of numbers.now) (length lists.now) followed.now.progress (left (map (λ v. v.items) lists.now) places.now) e.now }
{
    if !followed.progress.admits(e, numbers) {
        return false;
    }
    is_first(followed, lists, places, e, numbers)
}

// Whether the event is the first that is left of each task that it touches.
fn is_first(
    followed: &Followed,
    lists: &[Vec<Event>],
    places: &[usize],
    e: &Event,
    numbers: &Numbers,
) -> bool
    requires callers { AreCallers followed.now.progress (map (λ v. v.items) followed.now.callers.items) }
    ensures { IsTrue result ↔ ((u : ℕ) → u < length lists.now → touches (owner_of numbers.now) followed.now.progress e.now u ≡ true → first (left (map (λ v. v.items) lists.now) places.now u) ≡ Some e.now) }
{
    match *e {
        Event::R { c, e: entry, .. }
        | Event::C { c, e: entry, .. }
        | Event::T { c, e: entry, .. }
        | Event::F { c, e: entry, .. } => {
            is_first_of_two(lists, places, c, numbers.owner(entry), e)
        }
        Event::E { a } => {
            let c = innermost_or(callers_of(&followed.callers, a), a);
            is_first_of_two(lists, places, a, c, e)
        }
        Event::S { a } | Event::D { a, .. } | Event::X { a } => {
            is_first_of_one(lists, places, a, e)
        }
        Event::B { t, x } => {
            if !is_first_of_two(lists, places, t, x, e) {
                return false;
            }
            is_first_of_each(lists, places, callers_of(&followed.callers, x), e)
        }
        Event::Z => is_first_of_all(lists, places, e),
    }
}

// Whether this is the event.
fn is_event(found: Option<Event>, e: &Event) -> bool
    ensures { IsTrue result ↔ (found ≡ Some e.now) }
{
    match found {
        Some(f) => f == *e,
        None => false,
    }
}

// Whether the event is the first that is left of the task, if there is such a task.
fn is_first_of(lists: &[Vec<Event>], places: &[usize], t: u32, e: &Event) -> bool
    ensures { IsTrue result ↔ (t < length lists.now → first (left (map (λ v. v.items) lists.now) places.now t) ≡ Some e.now) }
{
    if t as usize >= lists.len() {
        return true;
    }
    is_event(first_left(lists, places, t as usize), e)
}

// The same, said of each task.
fn is_first_of_one(lists: &[Vec<Event>], places: &[usize], a: u32, e: &Event) -> bool
    ensures { IsTrue result ↔ ((u : ℕ) → u < length lists.now → (u == a) ≡ true → first (left (map (λ v. v.items) lists.now) places.now u) ≡ Some e.now) }
{
    is_first_of(lists, places, a, e)
}

// The same of two tasks.
fn is_first_of_two(lists: &[Vec<Event>], places: &[usize], a: u32, b: u32, e: &Event) -> bool
    ensures { IsTrue result ↔ ((u : ℕ) → u < length lists.now → ((u == a) || (u == b)) ≡ true → first (left (map (λ v. v.items) lists.now) places.now u) ≡ Some e.now) }
{
    if !is_first_of(lists, places, a, e) {
        return false;
    }
    is_first_of(lists, places, b, e)
}

// The same of each of these tasks.
fn is_first_of_each(lists: &[Vec<Event>], places: &[usize], tasks: &[u32], e: &Event) -> bool
    ensures { IsTrue result ↔ ((u : ℕ) → u < length lists.now → 0 < times u tasks.now → first (left (map (λ v. v.items) lists.now) places.now u) ≡ Some e.now) }
{
    for t in tasks {
        if !is_first_of(lists, places, *t, e) {
            return false;
        }
    }
    true
}

// The same of all tasks.
fn is_first_of_all(lists: &[Vec<Event>], places: &[usize], e: &Event) -> bool
    ensures { IsTrue result ↔ ((u : ℕ) → u < length lists.now → first (left (map (λ v. v.items) lists.now) places.now u) ≡ Some e.now) }
{
    for t in 0..lists.len() {
        if !is_event(first_left(lists, places, t), e) {
            return false;
        }
    }
    true
}
