// Lists of which the first events are taken: a place in each, and nothing is removed.

ghost use Rattle.std.specs.Prelude.{◌≡◌, ◌==◌, ◌<◌, ℕ, length, map, drop, replicate, slice_index_or, if◌then◌else◌, IfOk};
ghost use Rattle.event_machine.specs.Soundness.{times};
ghost use Rattle.syn_order.specs.Orders.{first, rest};
ghost use Rattle.syn_order.specs.inner.Lists.{at_place};
ghost use Rattle.syn_order.specs.inner.Places.{left, next_place};

use ada_tree::Memory;
use event_machine::Event;
use std::alloc::Global;

/// The places before anything is taken, of so many lists.
pub(crate) fn no_places(alloc: Global, count: usize) -> Result<Vec<usize>, Memory>
    ensures { IfOk result (λ places. places.items ≡ replicate count 0) }
{
    Ok(vec![in alloc; 0; count]?)
}

/// The first event that is left in the list of a task.
pub(crate) fn first_left(lists: &[Vec<Event>], places: &[usize], t: usize) -> Option<Event>
    ensures { result ≡ first (left (map (λ v. v.items) lists.now) places.now t) }
{
    event_at(list_of(lists, t), place_of(places, t))
}

// The list of a task.
fn list_of(lists: &[Vec<Event>], t: usize) -> &[Event]
    ensures { result.now ≡ at_place (map (λ v. v.items) lists.now) t }
{
    match lists.get(t) {
        Some(list) => list.as_slice(),
        None => &[],
    }
}

// The place of a task.
fn place_of(places: &[usize], t: usize) -> usize
    ensures { result ≡ slice_index_or places.now t 0 }
{
    match places.get(t) {
        Some(place) => *place,
        None => 0,
    }
}

// The event at a place.
fn event_at(list: &[Event], place: usize) -> Option<Event>
    ensures { result ≡ first (drop place list.now) }
{
    match list.get(place) {
        Some(e) => Some(*e),
        None => None,
    }
}

// The place behind, if there is one.
fn next_place(place: usize, count: usize) -> usize
    ensures { result ≡ next_place place count }
{
    if place < count { place + 1 } else { place }
}

// Takes the first event of a task, if one is left.
fn take_first(lists: &[Vec<Event>], places: &mut [usize], t: usize)
    requires { length places.old ≡ length lists.now }
    ensures count { length places.new ≡ length lists.now }
    ensures taken { (u : ℕ) → left (map (λ v. v.items) lists.now) places.new u ≡ (if u == t then rest (left (map (λ v. v.items) lists.now) places.old u) else left (map (λ v. v.items) lists.now) places.old u) }
{
    if t >= places.len() {
        return;
    }
    places[t] = next_place(places[t], list_of(lists, t).len());
}

/// Takes the first event of each of these tasks, where one is left.
pub(crate) fn take_firsts(lists: &[Vec<Event>], places: &mut [usize], tasks: &[u32])
    requires { length places.old ≡ length lists.now }
    ensures count { length places.new ≡ length lists.now }
    ensures taken { (u : ℕ) → left (map (λ v. v.items) lists.now) places.new u ≡ drop (times u tasks.now) (left (map (λ v. v.items) lists.now) places.old u) }
{
    for t in tasks {
        take_first(lists, places, *t as usize);
    }
}
