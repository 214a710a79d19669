// How a rendezvous starts and ends.

ghost use Rattle.std.specs.Prelude.{◌≡◌, IfOk, OnOk, OnErr};
ghost use Rattle.event_machine.specs.Effects.{freed, met_at, parted_both};
ghost use Rattle.event_machine.specs.Offers.{Finishes};
ghost use Rattle.task_model.specs.Tasks.{Task};
ghost use Rattle.task_model.specs.Calls.{values_handed};
ghost use Rattle.task_model.specs.Frames.{callers_in};
ghost use Rattle.task_model.specs.Rendezvous.{accepted, finished, pending_of};
ghost use Rattle.task_model.specs.Machine.{rules_of};
ghost use Rattle.task_local.specs.rendezvous.Handed.{handed_back};
ghost use Rattle.task_machine.specs.Table.{store, seat_of, offer_in_seat, parted_with, other_parted, first_parted};

use crate::effects::set_standing;
use crate::seats::{Seat, caller_at, is_abnormal, is_served_by};
use ada_tree::Memory;
use ada_value::{Raised, Value};
use event_machine::Standing;
use syn_event::Numbers;

/// The rendezvous of the caller with the owner of the entry starts. Its values pass through a list, so that no list is made anew.
pub fn meet(
    seats: &mut [Seat],
    values: &mut Vec<Value>,
    numbers: &Numbers,
    c: u32,
    e: u32,
    i: i32,
) -> Result<(), Memory>
    ensures ok { OnOk result (seats.new ≡ met_at (rules_of numbers.now) seats.old c e i) }
    ensures unchanged { OnErr result (seats.new ≡ seats.old) }
{
    let owner = numbers.owner(e);
    hand_over(seats, values, c)?;
    accept(seats, values, owner, e, i, c)?;
    set_standing(
        seats,
        c,
        Standing::Served {
            by: owner,
            abnormal: false,
        },
    );
    Ok(())
}

// The values with which the formals of the caller's call open.
fn hand_over(seats: &[Seat], values: &mut Vec<Value>, c: u32) -> Result<(), Memory>
    ensures { OnOk result (values.new.items ≡ values_handed (seat_of seats.now c).local) }
{
    match seats.get(c as usize) {
        Some(seat) => seat.local.actuals(values),
        None => {
            values.clear();
            Ok(())
        }
    }
}

// The task opens the body of its accept for the caller with these values, and is live.
fn accept(
    seats: &mut [Seat],
    values: &[Value],
    a: u32,
    e: u32,
    i: i32,
    c: u32,
) -> Result<(), Memory>
    ensures ok { OnOk result ((calling : Task) → values.now ≡ values_handed calling → seats.new ≡ freed store (accepted e i c calling) seats.old a) }
    ensures unchanged { OnErr result (seats.new ≡ seats.old) }
{
    if (a as usize) < seats.len() {
        let seat = &mut seats[a as usize];
        seat.local.begin_accept(e, i, c, values)?;
        seat.standing = Standing::Live;
    }
    Ok(())
}

/// The innermost rendezvous of the acceptor, which stands at the end of its accept body, ends on both sides. Its values pass through a list, so that
/// no list is made anew.
pub fn finish(
    seats: &mut [Seat],
    values: &mut Vec<Value>,
    numbers: &Numbers,
    a: u32,
) -> Result<(), Memory>
    requires { offer_in_seat (seat_of seats.old a) ≡ Finishes }
    ensures ok { OnOk result (seats.new ≡ parted_both (rules_of numbers.now) seats.old a) }
    ensures unchanged { OnErr result (seats.new ≡ seats.old) }
{
    let pending = look_back(seats, values, a)?;
    part_first(seats, values, a, pending)?;
    close(seats, a);
    Ok(())
}

// What goes back from the accept body at whose end the task stands: the exception that is pending there, and else the values.
fn look_back(seats: &[Seat], values: &mut Vec<Value>, a: u32) -> Result<Option<Raised>, Memory>
    requires { offer_in_seat (seat_of seats.now a) ≡ Finishes }
    ensures pending { IfOk result (λ pending. pending ≡ pending_of (seat_of seats.now a).local) }
    ensures values { OnOk result (values.new.items ≡ handed_back (seat_of seats.now a).local) }
{
    match seats.get(a as usize) {
        Some(seat) => seat.local.finals(values),
        None => {
            values.clear();
            Ok(None)
        }
    }
}

// The caller of the acceptor's innermost accept body leaves its rendezvous, with this exception pending or with these values.
fn part_first(
    seats: &mut [Seat],
    values: &[Value],
    a: u32,
    pending: Option<Raised>,
) -> Result<(), Memory>
    ensures ok { OnOk result (seats.new ≡ first_parted a pending values.now (callers_in (seat_of seats.old a).local.control) seats.old) }
    ensures unchanged { OnErr result (seats.new ≡ seats.old) }
{
    match caller_at(seats, a) {
        Some(c) => part_other(seats, values, a, pending, c),
        None => Ok(()),
    }
}

// The caller leaves its rendezvous with the acceptor, where it is another task.
fn part_other(
    seats: &mut [Seat],
    values: &[Value],
    a: u32,
    pending: Option<Raised>,
    c: u32,
) -> Result<(), Memory>
    ensures ok { OnOk result (seats.new ≡ other_parted a pending values.now c seats.old) }
    ensures unchanged { OnErr result (seats.new ≡ seats.old) }
{
    if c == a || seats.len() <= c as usize {
        return Ok(());
    }
    part(&mut seats[c as usize], values, a, pending)
}

// A caller of the acceptor leaves its rendezvous: an abnormal one completes, and else the exception is raised at its call, or the values come back.
fn part(seat: &mut Seat, values: &[Value], a: u32, pending: Option<Raised>) -> Result<(), Memory>
    ensures ok { OnOk result (seat.new ≡ parted_with a pending values.now seat.old) }
    ensures unchanged { OnErr result (seat.new ≡ seat.old) }
{
    if !is_served_by(a, seat.standing) {
        return Ok(());
    }
    if is_abnormal(seat.standing) {
        seat.standing = Standing::Completed;
        return Ok(());
    }
    match pending {
        Some(raised) => seat.local.raise_at_call(raised),
        None => {
            seat.local.reserve()?;
            seat.local.resume(values);
        }
    }
    seat.standing = Standing::Live;
    Ok(())
}

// The acceptor goes on behind its accept body, at whose end it stands, and is live.
fn close(seats: &mut [Seat], a: u32)
    requires { offer_in_seat (seat_of seats.old a) ≡ Finishes }
    ensures { seats.new ≡ freed store finished seats.old a }
{
    if (a as usize) < seats.len() {
        let seat = &mut seats[a as usize];
        seat.local.close_accept();
        seat.standing = Standing::Live;
    }
}
