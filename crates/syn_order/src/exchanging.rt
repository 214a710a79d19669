// Neighbours that can be exchanged.

ghost use Rattle.std.specs.Prelude.{◌≡◌, ◌+◌, ◌<◌, ◌≤◌, ◌^◌, ◌&&◌, ◌↔◌, true, false, length, take, IfOk, IfErr, OnOk, IsTrue};
ghost use Rattle.event_machine.specs.progress.Known.{known_at_start, known, admits, advanced, touches};
ghost use Rattle.syn_event.specs.Numbering.{owner_of};
ghost use Rattle.syn_order.specs.declared.errors.OrderError.TheVariants.{NotAdmitted};
ghost use Rattle.syn_order.specs.Orders.{AreAdmitted};
ghost use Rattle.syn_order.specs.Apart.{AreApart};
ghost use Rattle.syn_order.specs.Refusals.{IsSplitError, AreNeighboursApart};

use crate::errors::OrderError;
use control_script::progress::Progress;
use event_machine::Event;
use std::alloc::Global;
use syn_event::Numbers;

/// Whether the `k`-th event, from 1, and the next one can be exchanged: they touch no common task, by what is known before either.
/// The error is `NotAdmitted` where one of the events up to these two is not admitted, or want of memory.
pub fn exchangeable(
    alloc: Global,
    events: &[Event],
    numbers: &Numbers,
    k: u32,
) -> Result<bool, OrderError>
    requires from_one { 1 ≤ k }
    requires next { k + 1 ≤ length events.now }
    requires place { k + 1 < 2 ^ 32 }
    ensures admitted { IfOk result (λ answer. AreAdmitted (owner_of numbers.now) (known_at_start (length numbers.now.tasks)) (take (k + 1) events.now)) }
    ensures apart { IfOk result (λ answer. IsTrue answer ↔ AreNeighboursApart (owner_of numbers.now) (length numbers.now.tasks) events.now k) }
    ensures refused { IfErr result (λ error. IsSplitError (owner_of numbers.now) (length numbers.now.tasks) (take (k + 1) events.now) error) }
{
    last_apart(alloc, &events[..k as usize + 1], numbers, k)
}

// Whether the last of these events and the one before it, the `k`-th, can be exchanged.
fn last_apart(
    alloc: Global,
    events: &[Event],
    numbers: &Numbers,
    k: u32,
) -> Result<bool, OrderError>
    requires from_one { 1 ≤ k }
    requires last { length events.now ≡ k + 1 }
    requires place { k + 1 < 2 ^ 32 }
    ensures admitted { IfOk result (λ answer. AreAdmitted (owner_of numbers.now) (known_at_start (length numbers.now.tasks)) events.now) }
    ensures apart { IfOk result (λ answer. IsTrue answer ↔ AreNeighboursApart (owner_of numbers.now) (length numbers.now.tasks) events.now k) }
    ensures refused { IfErr result (λ error. IsSplitError (owner_of numbers.now) (length numbers.now.tasks) events.now error) }
{
    let place = k as usize - 1;
    let mut progress = follow(alloc, &events[..place], numbers)?;
    let apart = are_apart(&progress, &events[place], &events[place + 1], numbers);
    go_on(&mut progress, &events[place], k, numbers)?;
    go_on(&mut progress, &events[place + 1], k + 1, numbers)?;
    Ok(apart)
}

// What is known after the events, if all are admitted.
fn follow(alloc: Global, events: &[Event], numbers: &Numbers) -> Result<Progress, OrderError>
    requires { length events.now < 2 ^ 32 }
    ensures admitted { IfOk result (λ progress. AreAdmitted (owner_of numbers.now) (known_at_start (length numbers.now.tasks)) events.now) }
    ensures known { IfOk result (λ progress. progress ≡ known (owner_of numbers.now) (length numbers.now.tasks) events.now) }
    ensures refused { IfErr result (λ error. IsSplitError (owner_of numbers.now) (length numbers.now.tasks) events.now error) }
{
    let mut progress = Progress::new(alloc, numbers)?;
    let mut at: u32 = 0;
    for e in events {
        at += 1;
        go_on(&mut progress, e, at, numbers)?;
    }
    Ok(progress)
}

// Goes on by the event at this place, from 1, if it is admitted.
fn go_on(progress: &mut Progress, e: &Event, at: u32, numbers: &Numbers) -> Result<(), OrderError>
    ensures admitted { OnOk result (admits (owner_of numbers.now) progress.old e.now ≡ true) }
    ensures known { OnOk result (progress.new ≡ advanced (owner_of numbers.now) progress.old e.now) }
    ensures refused { IfErr result (λ error. error ≡ NotAdmitted at) }
    ensures not_admitted { IfErr result (λ error. admits (owner_of numbers.now) progress.old e.now ≡ false) }
{
    if !progress.admits(e, numbers) {
        return Err(OrderError::NotAdmitted { at });
    }
    progress.advance(e, numbers);
    Ok(())
}

// Whether no task is touched by both events.
fn are_apart(progress: &Progress, e: &Event, f: &Event, numbers: &Numbers) -> bool
    ensures { IsTrue result ↔ AreApart (owner_of numbers.now) (length numbers.now.tasks) progress.now e.now f.now }
{
    let count = numbers.tasks.as_slice().len() as u32;
    for t in 0..count {
        if is_shared(progress, e, f, numbers, t) {
            return false;
        }
    }
    true
}

// Whether the task is touched by both events.
fn is_shared(progress: &Progress, e: &Event, f: &Event, numbers: &Numbers, t: u32) -> bool
    ensures { result ≡ (touches (owner_of numbers.now) progress.now e.now t && touches (owner_of numbers.now) progress.now f.now t) }
{
    progress.touches(e, numbers, t) && progress.touches(f, numbers, t)
}
