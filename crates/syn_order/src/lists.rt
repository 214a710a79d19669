// Lists of lists.

ghost use Rattle.std.specs.Prelude.{◌≡◌, ◌++◌, ◌∷◌, [], length, map, replicate, IfOk, OnOk};
ghost use Rattle.syn_order.specs.inner.Lists.{put_behind};

use ada_tree::Memory;
use event_machine::Event;
use std::alloc::Global;

/// So many tasks without events.
pub(crate) fn no_events(alloc: Global, count: usize) -> Result<Vec<Vec<Event>>, Memory>
    ensures { IfOk result (λ lists. map (λ v. v.items) lists.items ≡ replicate count []) }
{
    let mut lists = Vec::new(alloc);
    for place in 0..count {
        add_no_events(alloc, &mut lists)?;
    }
    Ok(lists)
}

// One more task without events.
fn add_no_events(alloc: Global, lists: &mut Vec<Vec<Event>>) -> Result<(), Memory>
    ensures { OnOk result (map (λ v. v.items) lists.new.items ≡ map (λ v. v.items) lists.old.items ++ [] ∷ []) }
{
    Ok(lists.push(Vec::new(alloc))?)
}

/// So many tasks without callers.
pub(crate) fn no_callers(alloc: Global, count: usize) -> Result<Vec<Vec<u32>>, Memory>
    ensures { IfOk result (λ lists. map (λ v. v.items) lists.items ≡ replicate count []) }
{
    let mut lists = Vec::new(alloc);
    for place in 0..count {
        add_no_callers(alloc, &mut lists)?;
    }
    Ok(lists)
}

// One more task without callers.
fn add_no_callers(alloc: Global, lists: &mut Vec<Vec<u32>>) -> Result<(), Memory>
    ensures { OnOk result (map (λ v. v.items) lists.new.items ≡ map (λ v. v.items) lists.old.items ++ [] ∷ []) }
{
    Ok(lists.push(Vec::new(alloc))?)
}

/// An event goes behind those of a task.
pub(crate) fn put_event(lists: &mut Vec<Vec<Event>>, place: usize, e: Event) -> Result<(), Memory>
    ensures { OnOk result (map (λ v. v.items) lists.new.items ≡ put_behind (map (λ v. v.items) lists.old.items) place e) }
{
    if place >= lists.len() {
        return Ok(());
    }
    Ok(lists[place].push(e)?)
}

/// A task goes behind the callers of another.
pub(crate) fn put_caller(lists: &mut Vec<Vec<u32>>, place: usize, c: u32) -> Result<(), Memory>
    ensures { OnOk result (map (λ v. v.items) lists.new.items ≡ put_behind (map (λ v. v.items) lists.old.items) place c) }
{
    if place >= lists.len() {
        return Ok(());
    }
    Ok(lists[place].push(c)?)
}
