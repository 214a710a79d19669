// Splitting a sequence by tasks.

ghost use Rattle.std.specs.Prelude.{◌≡◌, ◌<◌, ◌^◌, ◌++◌, ℕ, length, map, replicate, IfOk, IfErr, OnOk};
ghost use Rattle.event_machine.specs.Soundness.{times};
ghost use Rattle.syn_event.specs.Numbering.{owner_of};
ghost use Rattle.syn_order.specs.Laws.{IsSource};
ghost use Rattle.syn_order.specs.Refusals.{IsSplitError};
ghost use Rattle.syn_order.specs.inner.Lists.{at_place};

use crate::errors::OrderError;
use crate::followed::Followed;
use crate::lists::{no_events, put_event};
use ada_tree::Memory;
use event_machine::Event;
use seq_file::TaskLists;
use std::alloc::Global;
use syn_event::Numbers;

/// The list of each task: the events that touch it, each by what is known before it, in order. There is one list for each task of the numbers.
/// The error is `NotAdmitted` at the first event that is not admitted, or want of memory.
pub fn split(alloc: Global, events: &[Event], numbers: &Numbers) -> Result<TaskLists, OrderError>
    requires few { length events.now < 2 ^ 32 }
    ensures lists { IfOk result (λ lists. IsSource (owner_of numbers.now) (length numbers.now.tasks) lists events.now) }
    ensures refused { IfErr result (λ error. IsSplitError (owner_of numbers.now) (length numbers.now.tasks) events.now error) }
{
    let mut followed = Followed::new(alloc, numbers)?;
    let mut lists = no_events(alloc, numbers.tasks.as_slice().len())?;
    let mut touched = Vec::new(alloc);
    let mut at: u32 = 0;
    for e in events {
        at += 1;
        if !followed.progress.admits(e, numbers) {
            return Err(OrderError::NotAdmitted { at });
        }
        followed.put_touched(e, numbers, &mut touched)?;
        put_for_each(&mut lists, &touched, *e)?;
        followed.advance(e, numbers)?;
    }
    Ok(TaskLists { lists })
}

// The event goes behind those of each of the tasks.
fn put_for_each(lists: &mut Vec<Vec<Event>>, tasks: &[u32], e: Event) -> Result<(), Memory>
    ensures count { OnOk result (length lists.new.items ≡ length lists.old.items) }
    ensures each { OnOk result ((u : ℕ) → u < length lists.old.items → at_place (map (λ v. v.items) lists.new.items) u ≡ at_place (map (λ v. v.items) lists.old.items) u ++ replicate (times u tasks.now) e) }
{
    for t in tasks {
        put_event(lists, *t as usize, e)?;
    }
    Ok(())
}
