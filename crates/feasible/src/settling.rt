// Running tasks on to where they can do something with others.

ghost use Rattle.std.specs.Prelude.{◌≡◌, ◌≤◌, ◌<◌, ◌^◌, ◌∷◌, [], pred, not, true, false, length, IfOk, OnOk};
ghost use Rattle.task_model.specs.Stands.{can_step};
ghost use Rattle.task_machine.specs.Conditions.{needed_of, tasks_to};
ghost use Rattle.feasible.specs.Keeping.{IsSettled};
ghost use Rattle.feasible.specs.inner.Needs.{HasRun, HaveRun, IsStuck, Settled};

use ada_tree::Memory;
use event_machine::Event;
use syn_event::Numbers;
use task_local::{LocalTask, Offer};
use task_machine::seats::{Seat, is_live};

// Runs a task on until it has no local step, or has made as many as are allowed: whether it has none left.
fn run_on(local: &mut LocalTask, steps: &mut u64, bound: u64) -> Result<bool, Memory>
    ensures run { OnOk result (HasRun local.old.task steps.old local.new.task steps.new) }
    ensures within { OnOk result (steps.old ≤ bound → steps.new ≤ bound) }
    ensures rests { IfOk result (λ rests. rests ≡ not (can_step local.new.task)) }
    ensures stuck { IfOk result (λ rests. rests ≡ false → bound ≤ steps.new) }
{
    while *steps < bound {
        if !local.step()? {
            return Ok(true);
        }
        *steps += 1;
    }
    Ok(!has_step(local))
}

fn has_step(local: &LocalTask) -> bool
    ensures { result ≡ can_step local.now.task }
{
    matches!(local.offer(), Offer::None)
}

// Runs the task of this number on, where it is free: whether it is settled.
pub(crate) fn settle(
    seats: &mut [Seat],
    steps: &mut [u64],
    bound: u64,
    t: u32,
) -> Result<bool, Memory>
    requires { length steps.old ≡ length seats.old }
    ensures run { OnOk result (HaveRun bound seats.old steps.old seats.new steps.new) }
    ensures settled { IfOk result (λ settled. settled ≡ true → IsSettled seats.new t) }
    ensures stuck { IfOk result (λ settled. settled ≡ false → IsStuck bound seats.new steps.new t) }
{
    if (t as usize) < seats.len() && (t as usize) < steps.len() {
        let seat = &mut seats[t as usize];
        if is_live(seat.standing) {
            return run_on(&mut seat.local, &mut steps[t as usize], bound);
        }
    }
    Ok(true)
}

// Runs one task on: it, where it is stuck.
fn settle_one(
    seats: &mut [Seat],
    steps: &mut [u64],
    bound: u64,
    t: u32,
) -> Result<Option<u32>, Memory>
    requires { length steps.old ≡ length seats.old }
    ensures run { OnOk result (HaveRun bound seats.old steps.old seats.new steps.new) }
    ensures settled { IfOk result (Settled bound seats.new steps.new (t ∷ [])) }
{
    if settle(seats, steps, bound, t)? {
        Ok(None)
    } else {
        Ok(Some(t))
    }
}

// Runs two tasks on, in this order: the first that is stuck.
fn settle_two(
    seats: &mut [Seat],
    steps: &mut [u64],
    bound: u64,
    t: u32,
    u: u32,
) -> Result<Option<u32>, Memory>
    requires { length steps.old ≡ length seats.old }
    ensures run { OnOk result (HaveRun bound seats.old steps.old seats.new steps.new) }
    ensures settled { IfOk result (Settled bound seats.new steps.new (t ∷ u ∷ [])) }
{
    if !settle(seats, steps, bound, t)? {
        return Ok(Some(t));
    }
    if settle(seats, steps, bound, u)? {
        Ok(None)
    } else {
        Ok(Some(u))
    }
}

// Runs all tasks on, in order: the first that is stuck.
fn settle_all(seats: &mut [Seat], steps: &mut [u64], bound: u64) -> Result<Option<u32>, Memory>
    requires same { length steps.old ≡ length seats.old }
    requires few { length seats.old < 2 ^ 32 }
    ensures run { OnOk result (HaveRun bound seats.old steps.old seats.new steps.new) }
    ensures settled { IfOk result (Settled bound seats.new steps.new (tasks_to (pred (length seats.old)))) }
{
    let count = seats.len() as u32;
    for t in 0..count {
        if !settle(seats, steps, bound, t)? {
            return Ok(Some(t));
        }
    }
    Ok(None)
}

// Runs the tasks on that the event needs, in order: the first that is stuck.
pub(crate) fn settle_needed(
    seats: &mut [Seat],
    steps: &mut [u64],
    numbers: &Numbers,
    bound: u64,
    e: &Event,
) -> Result<Option<u32>, Memory>
    requires same { length steps.old ≡ length seats.old }
    requires few { length seats.old < 2 ^ 32 }
    requires size { length seats.old ≡ length numbers.now.tasks }
    ensures run { OnOk result (HaveRun bound seats.old steps.old seats.new steps.new) }
    ensures settled { IfOk result (Settled bound seats.new steps.new (needed_of numbers.now e.now)) }
{
    match *e {
        Event::R { c, e, .. } => settle_two(seats, steps, bound, c, numbers.owner(e)),
        Event::E { a } | Event::S { a } | Event::D { a, .. } | Event::X { a } => {
            settle_one(seats, steps, bound, a)
        }
        Event::C { c, .. } | Event::T { c, .. } | Event::F { c, .. } => {
            settle_one(seats, steps, bound, c)
        }
        Event::B { t, .. } => settle_one(seats, steps, bound, t),
        Event::Z => settle_all(seats, steps, bound),
    }
}
