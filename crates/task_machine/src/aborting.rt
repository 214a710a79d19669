// How a task is aborted.

ghost use Rattle.std.specs.Prelude.{◌≡◌, map};
ghost use Rattle.event_machine.specs.Effects.{released, aborted, fallen, abort_seats};
ghost use Rattle.task_model.specs.TaskOps.{task_ops};
ghost use Rattle.task_model.specs.Machine.{rules_of};

use crate::effects::{pass, set_standing};
use crate::seats::{Seat, is_abnormal, is_closed, is_served_by, standing_at};
use ada_value::Raised;
use event_machine::Standing;
use syn_event::Numbers;

// The rendezvous of all callers with the task `x` end, as it closes.
fn release_all(seats: &mut [Seat], x: u32)
    ensures { seats.new ≡ map (released task_ops x) seats.old }
{
    for seat in seats.iter_mut() {
        release(seat, x);
    }
}

// A caller in a rendezvous with `x` gets TASKING_ERROR at its call, or completes where it is abnormal.
fn release(seat: &mut Seat, x: u32)
    ensures { seat.new ≡ released task_ops x seat.old }
{
    if is_served_by(x, seat.standing) {
        if is_abnormal(seat.standing) {
            seat.standing = Standing::Completed;
        } else {
            seat.local.raise_at_call(Raised::Tasking);
            seat.standing = Standing::Live;
        }
    }
}

/// The task `t` aborts `x`: a closed one stays as it is.
pub fn abort(seats: &mut [Seat], numbers: &Numbers, t: u32, x: u32)
    ensures { seats.new ≡ abort_seats (rules_of numbers.now) seats.old t x }
{
    let was_closed = is_closed(standing_at(seats, x));
    if x != t {
        pass(seats, t);
    }
    if !was_closed {
        let closing = if x == t {
            Standing::Completed
        } else {
            Standing::Killed
        };
        close(seats, numbers, x, closing);
    }
}

// The task `x`, which is not closed, is aborted.
fn close(seats: &mut [Seat], numbers: &Numbers, x: u32, closing: Standing)
    ensures { seats.new ≡ aborted (rules_of numbers.now) seats.old x closing }
{
    release_all(seats, x);
    let standing = fall(standing_at(seats, x), closing);
    set_standing(seats, x, standing);
}

// How an aborted task stands: a served one becomes abnormal, a closed one stays, and else it is closed in this way.
fn fall(standing: Standing, closing: Standing) -> Standing
    ensures { result ≡ fallen closing standing }
{
    match standing {
        Standing::Live | Standing::Waiting | Standing::Queued => closing,
        Standing::Served { by, .. } => Standing::Served { by, abnormal: true },
        Standing::Completed => Standing::Completed,
        Standing::Killed => Standing::Killed,
    }
}
