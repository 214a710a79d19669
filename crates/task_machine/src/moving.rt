// What actions do to the tasks and to the line of arrivals.

ghost use Rattle.std.specs.Prelude.{◌≡◌, OnOk, OnErr};
ghost use Rattle.event_machine.specs.Effects.{stand, met, without, arrived_standing, arrived_line};
ghost use Rattle.event_machine.specs.Offers.{aborted_by};
ghost use Rattle.task_model.specs.Machine.{rules_of};
ghost use Rattle.task_machine.specs.Table.{store, seat_of, offer_in_seat, aborted_seats, aborted_line};

use crate::effects::{abort, meet, set_standing};
use crate::seats::{Seat, is_closed, offer_at, standing_at};
use ada_tree::Memory;
use ada_value::Value;
use event_machine::Standing;
use syn_event::Numbers;
use task_local::Offer;

// The line without the caller.
pub(crate) fn leave_line(line: &mut Vec<u32>, c: u32)
    ensures { line.new.items ≡ without c line.old.items }
{
    line.retain(|x| *x != c);
}

// The task joins the end of the line at its call, or begins to wait.
pub(crate) fn arrive(seats: &mut [Seat], line: &mut Vec<u32>, t: u32) -> Result<(), Memory>
    ensures tasks { OnOk result (seats.new ≡ stand store seats.old t (arrived_standing (offer_in_seat (seat_of seats.old t)))) }
    ensures line { OnOk result (line.new.items ≡ arrived_line t (offer_in_seat (seat_of seats.old t)) line.old.items) }
    ensures unchanged { OnErr result (seats.new ≡ seats.old) }
    ensures same_line { OnErr result (line.new.items ≡ line.old.items) }
{
    match offer_at(seats, t) {
        Offer::Call { .. } => {
            line.push(t)?;
            set_standing(seats, t, Standing::Queued);
        }
        Offer::Wait(_) => set_standing(seats, t, Standing::Waiting),
        _ => set_standing(seats, t, Standing::Live),
    }
    Ok(())
}

// The rendezvous of the caller starts, and it leaves its queue.
pub(crate) fn start(
    seats: &mut [Seat],
    line: &mut Vec<u32>,
    values: &mut Vec<Value>,
    numbers: &Numbers,
    c: u32,
) -> Result<(), Memory>
    ensures tasks { OnOk result (seats.new ≡ met (rules_of numbers.now) seats.old c (offer_in_seat (seat_of seats.old c))) }
    ensures line { OnOk result (line.new.items ≡ without c line.old.items) }
    ensures unchanged { OnErr result (seats.new ≡ seats.old) }
    ensures same_line { OnErr result (line.new.items ≡ line.old.items) }
{
    if let Offer::Call { e, i, .. } = offer_at(seats, c) {
        meet(seats, values, numbers, c, e, i)?;
    }
    leave_line(line, c);
    Ok(())
}

// The task aborts the task that it names next.
pub(crate) fn abort_next(seats: &mut [Seat], line: &mut Vec<u32>, numbers: &Numbers, t: u32)
    ensures tasks { seats.new ≡ aborted_seats numbers.now seats.old t (aborted_by (offer_in_seat (seat_of seats.old t))) }
    ensures line { line.new.items ≡ aborted_line seats.old line.old.items (aborted_by (offer_in_seat (seat_of seats.old t))) }
{
    if let Offer::Abort { x } = offer_at(seats, t) {
        let was_closed = is_closed(standing_at(seats, x));
        abort(seats, numbers, t, x);
        if !was_closed {
            leave_line(line, x);
        }
    }
}
