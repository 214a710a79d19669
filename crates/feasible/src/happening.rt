// What an event does to the tasks and to their counts.

ghost use Rattle.std.specs.Prelude.{◌≡◌, slice_set, length, None, OnOk};
ghost use Rattle.event_machine.specs.Worlds.{acted};
ghost use Rattle.event_machine.specs.States.{is_served_by};
ghost use Rattle.task_model.specs.Machine.{rules_of};
ghost use Rattle.task_machine.specs.Table.{seat_of};
ghost use Rattle.feasible.specs.Failing.{asked};
ghost use Rattle.feasible.specs.inner.Recounts.{AreRecounted, BeginAnew};

use ada_tree::Memory;
use ada_value::Value;
use event_machine::{Event, Standing};
use syn_event::Numbers;
use task_machine::effects::{abort, fail, finish, meet, set_standing, take_delay, take_else};
use task_machine::seats::{Seat, caller_at, is_closed, is_served_by, standing_at};

// The event happens, whose conditions hold of the tasks as they stand. Values pass through a list, so that no list is made anew.
pub(crate) fn happen(
    seats: &mut [Seat],
    values: &mut Vec<Value>,
    numbers: &Numbers,
    e: &Event,
) -> Result<(), Memory>
    requires { asked numbers.now seats.old e.now ≡ None }
    ensures { OnOk result (seats.new ≡ acted (rules_of numbers.now) seats.old e.now) }
{
    match *e {
        Event::R { c, e, i } => meet(seats, values, numbers, c, e, i),
        Event::E { a } => finish(seats, values, numbers, a),
        Event::S { a } => take_else(seats, a),
        Event::D { a, k } => take_delay(seats, a, k),
        Event::C { c, .. } => take_else(seats, c),
        Event::T { c, .. } => take_delay(seats, c, 1),
        Event::F { c, .. } => {
            fail(seats, c);
            Ok(())
        }
        Event::X { a } => {
            set_standing(seats, a, Standing::Completed);
            Ok(())
        }
        Event::B { t, x } => {
            abort(seats, numbers, t, x);
            Ok(())
        }
        Event::Z => Ok(()),
    }
}

// The counts of the tasks that the event changes begin anew; the tasks are those before it.
pub(crate) fn recount(steps: &mut [u64], seats: &[Seat], numbers: &Numbers, e: &Event)
    requires { length steps.old ≡ length seats.now }
    ensures { AreRecounted numbers.now seats.now e.now steps.old steps.new }
{
    match *e {
        Event::R { c, e, .. } => {
            begin_anew(steps, c);
            begin_anew(steps, numbers.owner(e));
        }
        Event::E { a } => {
            begin_anew(steps, a);
            if let Some(c) = caller_at(seats, a) {
                begin_anew(steps, c);
            }
        }
        Event::S { a } | Event::D { a, .. } | Event::X { a } => begin_anew(steps, a),
        Event::C { c, .. } | Event::T { c, .. } | Event::F { c, .. } => begin_anew(steps, c),
        Event::B { t, x } => {
            begin_anew(steps, t);
            if !is_closed(standing_at(seats, x)) {
                begin_anew(steps, x);
                begin_served(steps, seats, x);
            }
        }
        Event::Z => {}
    }
}

// The count of the task begins anew.
fn begin_anew(steps: &mut [u64], t: u32)
    ensures { steps.new ≡ slice_set steps.old t 0 }
{
    if (t as usize) < steps.len() {
        steps[t as usize] = 0;
    }
}

// The counts of the callers in a rendezvous with `x` begin anew.
fn begin_served(steps: &mut [u64], seats: &[Seat], x: u32)
    requires { length steps.old ≡ length seats.now }
    ensures { BeginAnew (λ t. is_served_by x (seat_of seats.now t).standing) steps.old steps.new }
{
    for t in 0..steps.len() {
        if t < seats.len() {
            let seat = &seats[t];
            if is_served_by(x, seat.standing) {
                steps[t] = 0;
            }
        }
    }
}
