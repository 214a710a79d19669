// Joining lists into a sequence.

ghost use Rattle.std.specs.Prelude.{◌≡◌, ◌<◌, ◌^◌, ℕ, [], length, map, replicate, IfOk, IfErr, IfSome, IsTrue, None, Some, is_some, nat_lt, ◌&&◌, true, false};
ghost use Rattle.event_machine.specs.declared.Event.{Event as SpecEvent};
ghost use Rattle.event_machine.specs.progress.Known.{known_at_start};
ghost use Rattle.event_machine.specs.Worlds.{is_last};
ghost use Rattle.syn_event.specs.Numbering.{owner_of};
ghost use Rattle.syn_order.specs.Orders.{first, list_at, IsReady, IsPicked, IsJoin};
ghost use Rattle.syn_order.specs.Laws.{IsOrder};
ghost use Rattle.syn_order.specs.Refusals.{IsJoinError};
ghost use Rattle.syn_order.specs.inner.Callers.{AreCallers};
ghost use Rattle.syn_order.specs.inner.Places.{left, NoneReady, IsRun, IsFirstLeft};

use crate::errors::OrderError;
use crate::followed::Followed;
use crate::places::{first_left, no_places, take_firsts};
use crate::readiness::is_ready;
use ada_tree::Memory;
use event_machine::Event;
use seq_file::TaskLists;
use std::alloc::Global;
use syn_event::Numbers;

/// The one sequence whose lists these are: the events in the order in which they are picked, each time the ready event that is first in the list of the
/// least task. There is one list for each task of the numbers. The error is `NoOrder` where the lists have no order, or want of memory.
pub fn join(alloc: Global, lists: &TaskLists, numbers: &Numbers) -> Result<Vec<Event>, OrderError>
    requires { length lists.now ≡ length numbers.now.tasks }
    ensures order { IfOk result (λ events. IsOrder (owner_of numbers.now) (length numbers.now.tasks) lists.now events.items) }
    ensures refused { IfErr result (λ error. IsJoinError (owner_of numbers.now) (length numbers.now.tasks) lists.now error) }
{
    join_lists(alloc, &lists.lists, numbers)
}

// The same of the lists alone.
fn join_lists(
    alloc: Global,
    lists: &[Vec<Event>],
    numbers: &Numbers,
) -> Result<Vec<Event>, OrderError>
    requires { length lists.now ≡ length numbers.now.tasks }
    ensures order { IfOk result (λ events. IsOrder (owner_of numbers.now) (length numbers.now.tasks) (map (λ v. v.items) lists.now) events.items) }
    ensures refused { IfErr result (λ error. IsJoinError (owner_of numbers.now) (length numbers.now.tasks) (map (λ v. v.items) lists.now) error) }
{
    let mut places = no_places(alloc, lists.len())?;
    let events = take_all(alloc, lists, &mut places, numbers)?;
    match first_not_used_up(lists, &places, numbers) {
        Some(task) => Err(OrderError::NoOrder { task }),
        None => Ok(events),
    }
}

// The events that are picked one after the other, until none is ready.
fn take_all(
    alloc: Global,
    lists: &[Vec<Event>],
    places: &mut [usize],
    numbers: &Numbers,
) -> Result<Vec<Event>, Memory>
    requires tasks { length lists.now ≡ length numbers.now.tasks }
    requires places { places.old ≡ replicate (length lists.now) 0 }
    ensures run { IfOk result (λ events. IsRun (owner_of numbers.now) (length numbers.now.tasks) (list_at (map (λ v. v.items) lists.now)) (left (map (λ v. v.items) lists.now) places.new) events.items) }
{
    let mut followed = Followed::new(alloc, numbers)?;
    let mut events = Vec::new(alloc);
    let mut touched = Vec::new(alloc);
    while let Some(e) = pick(&followed, lists, places, numbers) {
        events.push(e)?;
        followed.put_touched(&e, numbers, &mut touched)?;
        take_firsts(lists, places, &touched);
        followed.advance(&e, numbers)?;
    }
    Ok(events)
}

// The event that is picked next: the ready one that is first in the list of the least task.
fn pick(
    followed: &Followed,
    lists: &[Vec<Event>],
    places: &[usize],
    numbers: &Numbers,
) -> Option<Event>
    requires callers { AreCallers followed.now.progress (map (λ v. v.items) followed.now.callers.items) }
    ensures picked { IfSome result (λ e. IsPicked (owner_of numbers.now) (length lists.now) followed.now.progress (left (map (λ v. v.items) lists.now) places.now) e) }
    ensures none { result ≡ None → NoneReady (owner_of numbers.now) (length lists.now) followed.now.progress (left (map (λ v. v.items) lists.now) places.now) (length lists.now) }
{
    for t in 0..lists.len() {
        match ready_at(followed, lists, places, t, numbers) {
            Some(e) => return Some(e),
            None => {}
        }
    }
    None
}

// The first event that is left of the task, if it is ready. The end of the program is looked for in the list of the task 0 alone.
fn ready_at(
    followed: &Followed,
    lists: &[Vec<Event>],
    places: &[usize],
    t: usize,
    numbers: &Numbers,
) -> Option<Event>
    requires callers { AreCallers followed.now.progress (map (λ v. v.items) followed.now.callers.items) }
    ensures first { IfSome result (λ e. first (left (map (λ v. v.items) lists.now) places.now t) ≡ Some e) }
    ensures ready { IfSome result (λ e. IsReady (owner_of numbers.now) (length lists.now) followed.now.progress (left (map (λ v. v.items) lists.now) places.now) e) }
    ensures none { result ≡ None → (f : SpecEvent) → first (left (map (λ v. v.items) lists.now) places.now t) ≡ Some f → (0 < t → is_last f ≡ false) → IsReady (owner_of numbers.now) (length lists.now) followed.now.progress (left (map (λ v. v.items) lists.now) places.now) f → ⊥ }
{
    match first_left(lists, places, t) {
        Some(e) => {
            if is_late_end(&e, t) {
                return None;
            }
            if !is_ready(followed, lists, places, &e, numbers) {
                return None;
            }
            Some(e)
        }
        None => None,
    }
}

// Whether it is the end of the program, looked for in another list than the first.
fn is_late_end(e: &Event, t: usize) -> bool
    ensures { result ≡ (nat_lt 0 t && is_last e.now) }
{
    t > 0 && matches!(*e, Event::Z)
}

// Whether the list of the task is not used up.
fn is_left(lists: &[Vec<Event>], places: &[usize], t: usize) -> bool
    ensures { result ≡ is_some (first (left (map (λ v. v.items) lists.now) places.now t)) }
{
    match first_left(lists, places, t) {
        Some(_) => true,
        None => false,
    }
}

// The first task whose list is not used up.
fn first_not_used_up(lists: &[Vec<Event>], places: &[usize], numbers: &Numbers) -> Option<u32>
    requires { length lists.now ≡ length numbers.now.tasks }
    ensures used_up { result ≡ None → (u : ℕ) → u < length numbers.now.tasks → left (map (λ v. v.items) lists.now) places.now u ≡ [] }
    ensures first { IfSome result (λ t. IsFirstLeft (length numbers.now.tasks) (left (map (λ v. v.items) lists.now) places.now) t) }
{
    let count = numbers.tasks.as_slice().len() as u32;
    for t in 0..count {
        if is_left(lists, places, t as usize) {
            return Some(t);
        }
    }
    None
}
