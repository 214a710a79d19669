// The first condition of an event that fails.

ghost use Rattle.std.specs.Prelude.{◌≡◌, pred, length, ◌<◌, ◌^◌};
ghost use Rattle.event_machine.specs.Offers as offers;
ghost use Rattle.event_machine.specs.Worlds.{aborts};
ghost use Rattle.task_machine.specs.Conditions.{failing_in, others_may_end};
ghost use Rattle.task_machine.specs.Table.{seat_of, offer_in_seat};
ghost use Rattle.feasible.specs.Failing.{why, first_of, act_fails, closed_fails, open_fails, main_fails, other_fails, view_at, act_asked, asked};

use event_machine::{CallForm, Event, Standing};
use syn_event::Numbers;
use task_local::Offer;
use task_machine::applying::{
    calls_member, ends, finishes, has_delay, has_else, has_terminate, opens_member,
};
use task_machine::seats::{Seat, offer_at, standing_at};
use task_machine::{Cause, Why};

// Why the event can't happen as the tasks stand: the first of its conditions that fails.
pub(crate) fn failing(seats: &[Seat], numbers: &Numbers, e: &Event) -> Option<Why>
    requires { length seats.now < 2 ^ 32 }
    ensures { result ≡ asked numbers.now seats.now e.now }
{
    let event = *e;
    match event {
        Event::R { c, e, i } => failing_start(seats, numbers.owner(e), c, e, i),
        Event::E { a } => failing_act(seats, a, finishes(seats, a)),
        Event::S { a } => failing_act(seats, a, has_else(seats, a)),
        Event::D { a, k } => failing_act(seats, a, has_delay(seats, a, k)),
        Event::C { c, e, i } => first_of(
            failing_act(seats, c, calls_conditionally(seats, c, e, i)),
            failing_open(seats, numbers.owner(e)),
        ),
        Event::T { c, e, i } => first_of(
            failing_act(seats, c, calls_timed(seats, c, e, i)),
            failing_open(seats, numbers.owner(e)),
        ),
        Event::F { c, e, i } => first_of(
            failing_act(seats, c, calls_member(seats, c, e, i)),
            failing_closed(seats, numbers.owner(e)),
        ),
        Event::X { a } => failing_act(seats, a, a != 0 && ends(seats, a)),
        Event::B { t, x } => failing_act(seats, t, aborts(seats, t, x)),
        Event::Z => first_of(failing_main(seats), failing_others(seats)),
    }
}

// The first of two causes.
fn first_of(first: Option<Why>, second: Option<Why>) -> Option<Why>
    ensures { result ≡ first_of first second }
{
    match first {
        Some(why) => Some(why),
        None => second,
    }
}

fn because(cause: Cause, task: u32) -> Option<Why>
    ensures { result ≡ why cause task }
{
    Some(Why { cause, task })
}

// Why the task does not act, where its offer passes the test or not.
fn failing_act(seats: &[Seat], t: u32, passes: bool) -> Option<Why>
    ensures { result ≡ act_fails (view_at seats.now t) t passes }
{
    match standing_at(seats, t) {
        Standing::Completed | Standing::Killed => because(Cause::Closed, t),
        Standing::Served { abnormal, .. } => {
            let cause = if abnormal { Cause::Closed } else { Cause::Busy };
            because(cause, t)
        }
        Standing::Live | Standing::Waiting | Standing::Queued => {
            if passes {
                None
            } else {
                because(Cause::Offer, t)
            }
        }
    }
}

// Why the rendezvous of the caller with the owner of the entry can't start.
fn failing_start(seats: &[Seat], owner: u32, c: u32, e: u32, i: i32) -> Option<Why>
    ensures { result ≡ first_of (act_asked seats.now c (offers.calls_in offers.is_any_form e i)) (act_asked seats.now owner (offers.waits_with (offers.opens e i))) }
{
    let caller = failing_act(seats, c, calls_member(seats, c, e, i));
    let acceptor = failing_act(seats, owner, opens_member(seats, owner, e, i));
    first_of(caller, acceptor)
}

// The task is closed, and had not to be.
fn failing_open(seats: &[Seat], t: u32) -> Option<Why>
    ensures { result ≡ closed_fails (view_at seats.now t) t }
{
    match standing_at(seats, t) {
        Standing::Completed | Standing::Killed => because(Cause::Closed, t),
        Standing::Served { abnormal, .. } => {
            if abnormal {
                because(Cause::Closed, t)
            } else {
                None
            }
        }
        Standing::Live | Standing::Waiting | Standing::Queued => None,
    }
}

// The task is not closed, and had to be.
fn failing_closed(seats: &[Seat], t: u32) -> Option<Why>
    ensures { result ≡ open_fails (view_at seats.now t) t }
{
    match standing_at(seats, t) {
        Standing::Completed | Standing::Killed => None,
        Standing::Served { abnormal, .. } => {
            if abnormal {
                None
            } else {
                because(Cause::NotClosed, t)
            }
        }
        Standing::Live | Standing::Waiting | Standing::Queued => because(Cause::NotClosed, t),
    }
}

// Why the main program is not at its end.
fn failing_main(seats: &[Seat]) -> Option<Why>
    ensures { result ≡ main_fails (view_at seats.now 0) (offers.is_end (offer_in_seat (seat_of seats.now 0))) }
{
    match standing_at(seats, 0) {
        Standing::Served { .. } => because(Cause::Busy, 0),
        Standing::Completed | Standing::Killed => because(Cause::Offer, 0),
        Standing::Live | Standing::Waiting | Standing::Queued => {
            if ends(seats, 0) {
                None
            } else {
                because(Cause::Offer, 0)
            }
        }
    }
}

// Why another task can't end with the main program.
fn failing_other(seats: &[Seat], t: u32) -> Option<Why>
    ensures { result ≡ other_fails (view_at seats.now t) t (offers.waits_with offers.is_terminate (offer_in_seat (seat_of seats.now t))) }
{
    match standing_at(seats, t) {
        Standing::Served { .. } => because(Cause::Busy, t),
        Standing::Completed | Standing::Killed => None,
        Standing::Live | Standing::Waiting | Standing::Queued => {
            if has_terminate(seats, t) {
                None
            } else {
                because(Cause::Offer, t)
            }
        }
    }
}

// Why some other task can't end with the main program: the first one.
fn failing_others(seats: &[Seat]) -> Option<Why>
    requires { length seats.now < 2 ^ 32 }
    ensures { result ≡ failing_in (view_at seats.now) (others_may_end (pred (length seats.now))) }
{
    let count = seats.len() as u32;
    for t in 1..count {
        match failing_other(seats, t) {
            Some(why) => return Some(why),
            None => {}
        }
    }
    None
}

// The task calls the member conditionally.
fn calls_conditionally(seats: &[Seat], c: u32, e: u32, i: i32) -> bool
    ensures { result ≡ offers.calls_in offers.is_conditional e i (offer_in_seat (seat_of seats.now c)) }
{
    match offer_at(seats, c) {
        Offer::Call { form, e: f, i: j } => matches!(form, CallForm::Conditional)
            && (e == f && i == j),
        _ => false,
    }
}

// The task makes a timed call of the member.
fn calls_timed(seats: &[Seat], c: u32, e: u32, i: i32) -> bool
    ensures { result ≡ offers.calls_in offers.is_timed e i (offer_in_seat (seat_of seats.now c)) }
{
    match offer_at(seats, c) {
        Offer::Call { form, e: f, i: j } => matches!(form, CallForm::Timed) && (e == f && i == j),
        _ => false,
    }
}

// The task offers to abort `x`.
fn aborts(seats: &[Seat], t: u32, x: u32) -> bool
    ensures { result ≡ aborts x (offer_in_seat (seat_of seats.now t)) }
{
    match offer_at(seats, t) {
        Offer::Abort { x: y } => x == y,
        _ => false,
    }
}
