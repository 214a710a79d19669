// What is known after some events, with the callers of each task at hand.

ghost use Rattle.std.specs.Prelude.{◌≡◌, ◌==◌, ◌||◌, ◌&&◌, ◌+◌, ◌<◌, ◌^◌, ℕ, true, [], length, map, reverse, nat_lt, slice_set, if◌then◌else◌, IfOk, OnOk};
ghost use Rattle.event_machine.specs.Soundness.{times};
ghost use Rattle.event_machine.specs.progress.Known.{known_at_start, admits, advanced, party};
ghost use Rattle.syn_event.specs.Numbering.{owner_of};
ghost use Rattle.syn_order.specs.inner.Lists.{at_place};
ghost use Rattle.syn_order.specs.inner.Callers.{AreCallers, AreTouched, all_but_last, callers_after, innermost_or};

use crate::lists::{no_callers, put_caller};
use ada_tree::Memory;
use control_script::progress::Progress;
use event_machine::Event;
use std::alloc::Global;
use syn_event::Numbers;

/// What is known after some events, and the callers of each task, innermost last.
#[derive(Drop)]
pub(crate) struct Followed {
    pub(crate) progress: Progress,
    pub(crate) callers: Vec<Vec<u32>>,
}

impl Followed {
    /// Before the first event.
    pub(crate) fn new(alloc: Global, numbers: &Numbers) -> Result<Followed, Memory>
        ensures known { IfOk result (λ f. f.progress ≡ known_at_start (length numbers.now.tasks)) }
        ensures callers { IfOk result (λ f. AreCallers f.progress (map (λ v. v.items) f.callers.items)) }
    {
        let progress = Progress::new(alloc, numbers)?;
        let callers = no_callers(alloc, numbers.tasks.as_slice().len())?;
        Ok(Followed { progress, callers })
    }

    /// Goes on by an event that is admitted.
    pub(crate) fn advance(&mut self, e: &Event, numbers: &Numbers) -> Result<(), Memory>
        requires callers { AreCallers self.old.progress (map (λ v. v.items) self.old.callers.items) }
        requires admitted { admits (owner_of numbers.now) self.old.progress e.now ≡ true }
        ensures known { OnOk result (self.new.progress ≡ advanced (owner_of numbers.now) self.old.progress e.now) }
        ensures callers { OnOk result (AreCallers self.new.progress (map (λ v. v.items) self.new.callers.items)) }
    {
        change_callers(&mut self.callers, &self.progress, e, numbers)?;
        self.progress.advance(e, numbers);
        Ok(())
    }

    /// Puts the tasks that the event touches into `touched`, each once, in place of what is there.
    pub(crate) fn put_touched(
        &self,
        e: &Event,
        numbers: &Numbers,
        touched: &mut Vec<u32>,
    ) -> Result<(), Memory>
        requires callers { AreCallers self.now.progress (map (λ v. v.items) self.now.callers.items) }
        requires tasks { length self.now.progress.parties ≡ length numbers.now.tasks }
        ensures { OnOk result (AreTouched (owner_of numbers.now) self.now.progress e.now touched.new.items) }
    {
        touched.clear();
        let count = numbers.tasks.as_slice().len() as u32;
        match *e {
            Event::R { c, e, .. }
            | Event::C { c, e, .. }
            | Event::T { c, e, .. }
            | Event::F { c, e, .. } => put_two(touched, c, numbers.owner(e), count),
            Event::E { a } => put_two(
                touched,
                a,
                innermost_or(callers_of(&self.callers, a), a),
                count,
            ),
            Event::S { a } | Event::D { a, .. } | Event::X { a } => put_one(touched, a, count),
            Event::B { t, x } => {
                put_two(touched, t, x, count)?;
                put_others(touched, callers_of(&self.callers, x), t, x, count)
            }
            Event::Z => put_all(touched, count),
        }
    }
}

// The callers after an event that is admitted.
fn change_callers(
    callers: &mut Vec<Vec<u32>>,
    progress: &Progress,
    e: &Event,
    numbers: &Numbers,
) -> Result<(), Memory>
    ensures { OnOk result (map (λ v. v.items) callers.new.items ≡ callers_after (owner_of numbers.now) progress.now e.now (map (λ v. v.items) callers.old.items)) }
{
    match *e {
        Event::R { c, e, .. } => put_caller(callers, numbers.owner(e) as usize, c),
        Event::E { a } => {
            drop_innermost(callers, a as usize);
            Ok(())
        }
        Event::B { x, .. } => {
            if !progress.closed(x) {
                drop_all(callers, x as usize);
            }
            Ok(())
        }
        Event::S { .. }
        | Event::D { .. }
        | Event::C { .. }
        | Event::T { .. }
        | Event::F { .. }
        | Event::X { .. }
        | Event::Z => Ok(()),
    }
}

// The innermost caller of the task is gone.
fn drop_innermost(callers: &mut Vec<Vec<u32>>, place: usize)
    ensures { map (λ v. v.items) callers.new.items ≡ slice_set (map (λ v. v.items) callers.old.items) place (all_but_last (at_place (map (λ v. v.items) callers.old.items) place)) }
{
    if place >= callers.len() {
        return;
    }
    let _ = callers[place].pop();
}

// All callers of the task are gone.
fn drop_all(callers: &mut Vec<Vec<u32>>, place: usize)
    ensures { map (λ v. v.items) callers.new.items ≡ slice_set (map (λ v. v.items) callers.old.items) place [] }
{
    if place >= callers.len() {
        return;
    }
    callers[place].clear();
}

/// The callers of a task, innermost last.
pub(crate) fn callers_of(callers: &[Vec<u32>], t: u32) -> &[u32]
    ensures { result.now ≡ at_place (map (λ v. v.items) callers.now) t }
{
    match callers.get(t as usize) {
        Some(list) => list.as_slice(),
        None => &[],
    }
}

// The innermost of these callers, or `d` where there is none.
pub(crate) fn innermost_or(callers: &[u32], d: u32) -> u32
    ensures { result ≡ innermost_or d (reverse callers.now) }
{
    match callers.last() {
        Some(c) => *c,
        None => d,
    }
}

// A task goes to those that are touched, if there is such a task.
fn put_one(touched: &mut Vec<u32>, t: u32, count: u32) -> Result<(), Memory>
    ensures { OnOk result ((u : ℕ) → times u touched.new.items ≡ times u touched.old.items + (if (u == t) && nat_lt u count then 1 else 0)) }
{
    if t >= count {
        return Ok(());
    }
    Ok(touched.push(t)?)
}

// Two tasks, which may be one.
fn put_two(touched: &mut Vec<u32>, a: u32, b: u32, count: u32) -> Result<(), Memory>
    ensures { OnOk result ((u : ℕ) → times u touched.new.items ≡ times u touched.old.items + (if ((u == a) || (u == b)) && nat_lt u count then 1 else 0)) }
{
    put_one(touched, a, count)?;
    if a == b {
        return Ok(());
    }
    put_one(touched, b, count)
}

// A task but these two.
fn put_other(touched: &mut Vec<u32>, c: u32, a: u32, b: u32, count: u32) -> Result<(), Memory>
    ensures { OnOk result ((u : ℕ) → times u touched.new.items ≡ times u touched.old.items + (if ((u == a) || (u == b)) then 0 else (if (u == c) && nat_lt u count then 1 else 0))) }
{
    if c == a {
        return Ok(());
    }
    if c == b {
        return Ok(());
    }
    put_one(touched, c, count)
}

// The callers but these two.
fn put_others(
    touched: &mut Vec<u32>,
    callers: &[u32],
    a: u32,
    b: u32,
    count: u32,
) -> Result<(), Memory>
    ensures { OnOk result ((u : ℕ) → times u touched.new.items ≡ times u touched.old.items + (if ((u == a) || (u == b)) then 0 else (if nat_lt u count then times u callers.now else 0))) }
{
    for c in callers {
        put_other(touched, *c, a, b, count)?;
    }
    Ok(())
}

// All tasks.
fn put_all(touched: &mut Vec<u32>, count: u32) -> Result<(), Memory>
    ensures { OnOk result ((u : ℕ) → times u touched.new.items ≡ times u touched.old.items + (if nat_lt u count then 1 else 0)) }
{
    for t in 0..count {
        put_one(touched, t, count)?;
    }
    Ok(())
}
