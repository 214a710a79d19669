// When each action applies.

ghost use Rattle.std.specs.Prelude.{◌≡◌, ◌<◌, ◌^◌, [], not, pred, length, is_some};
ghost use Rattle.std.specs.List.{list_any};
ghost use Rattle.event_machine.specs.Offers as offers;
ghost use Rattle.event_machine.specs.Applying as applying;
ghost use Rattle.syn_event.specs.Numbering.{owner_of};
ghost use Rattle.task_model.specs.Stands.{can_step};
ghost use Rattle.task_model.specs.TaskOps.{task_ops};
ghost use Rattle.task_machine.specs.Table.{applies_in, seat_of, seen_in, offer_in_seat};

use crate::Action;
use crate::seats::{
    Seat, is_closed, is_completed, is_live, is_queued, is_waiting, offer_at, standing_at,
};
use event_machine::{CallForm, Choice};
use syn_event::Numbers;
use task_local::Offer;

// The action applies to these tasks with this line of arrivals, where the program has not ended.
pub(crate) fn applies(seats: &[Seat], line: &[u32], numbers: &Numbers, action: Action) -> bool
    requires { length seats.now < 2 ^ 32 }
    ensures { result ≡ applies_in numbers.now seats.now line.now action }
{
    match action {
        Action::Local { t } => is_live(standing_at(seats, t)) && has_step(seats, t),
        Action::Arrive { t } => is_live(standing_at(seats, t)) && arrives(seats, line, numbers, t),
        Action::Start { c } => starts(seats, line, numbers, c),
        Action::Finish { a } => is_live(standing_at(seats, a)) && finishes(seats, a),
        Action::Else { a } => {
            is_waiting(standing_at(seats, a))
                && (has_else(seats, a) && has_no_caller(seats, line, a))
        }
        Action::Delay { a, k } => {
            is_waiting(standing_at(seats, a))
                && (has_delay(seats, a, k) && has_no_caller(seats, line, a))
        }
        Action::CallElse { c } => {
            is_live(standing_at(seats, c))
                && (calls_open_conditionally(seats, line, numbers, c)
                    && !starts(seats, line, numbers, c))
        }
        Action::Expire { c } => is_queued(standing_at(seats, c))
            && calls_open_timed(seats, line, numbers, c),
        Action::Fail { c } => {
            (is_live(standing_at(seats, c)) || is_queued(standing_at(seats, c)))
                && calls_closed(seats, line, numbers, c)
        }
        Action::Complete { a } => !(a == 0) && (is_live(standing_at(seats, a)) && ends(seats, a)),
        Action::Abort { t } => is_live(standing_at(seats, t)) && aborts(seats, t),
        Action::End => is_live(standing_at(seats, 0))
            && (ends(seats, 0) && others_can_end(seats, line)),
    }
}

// The task has a local step.
pub(crate) fn has_step(seats: &[Seat], t: u32) -> bool
    ensures { result ≡ can_step (seat_of seats.now t).local }
{
    matches!(offer_at(seats, t), Offer::None)
}

/// The task offers the end of an accept body.
pub fn finishes(seats: &[Seat], t: u32) -> bool
    ensures { result ≡ offers.is_finish (offer_in_seat (seat_of seats.now t)) }
{
    matches!(offer_at(seats, t), Offer::Finish)
}

/// The task offers the end of its own body.
pub fn ends(seats: &[Seat], t: u32) -> bool
    ensures { result ≡ offers.is_end (offer_in_seat (seat_of seats.now t)) }
{
    matches!(offer_at(seats, t), Offer::End)
}

fn aborts(seats: &[Seat], t: u32) -> bool
    ensures { result ≡ is_some (offers.aborted_by (offer_in_seat (seat_of seats.now t))) }
{
    matches!(offer_at(seats, t), Offer::Abort { .. })
}

// The task can begin to wait, or to queue at an entry whose owner is not closed.
fn arrives(seats: &[Seat], line: &[u32], numbers: &Numbers, t: u32) -> bool
    ensures { result ≡ applying.arrives (owner_of numbers.now) (seen_in seats.now line.now) (offer_in_seat (seat_of seats.now t)) }
{
    match offer_at(seats, t) {
        Offer::Call { form, e, .. } => queues_up(form)
            && !is_closed(standing_at(seats, numbers.owner(e))),
        Offer::Wait(_) => true,
        _ => false,
    }
}

fn queues_up(form: CallForm) -> bool
    ensures { result ≡ offers.queues_up form }
{
    !matches!(form, CallForm::Conditional)
}

fn is_conditional(form: CallForm) -> bool
    ensures { result ≡ offers.is_conditional form }
{
    matches!(form, CallForm::Conditional)
}

fn is_timed(form: CallForm) -> bool
    ensures { result ≡ offers.is_timed form }
{
    matches!(form, CallForm::Timed)
}

// The rendezvous of the caller can start.
fn starts(seats: &[Seat], line: &[u32], numbers: &Numbers, c: u32) -> bool
    ensures { result ≡ applying.starts task_ops (owner_of numbers.now) (seen_in seats.now line.now) c (offer_in_seat (seat_of seats.now c)) }
{
    match offer_at(seats, c) {
        Offer::Call { form, e, i } => starts_at(seats, line, numbers, c, form, e, i),
        _ => false,
    }
}

// The owner waits with an open accept of the member, and the caller is the first in its queue, or calls conditionally while that is empty.
fn starts_at(
    seats: &[Seat],
    line: &[u32],
    numbers: &Numbers,
    c: u32,
    form: CallForm,
    e: u32,
    i: i32,
) -> bool
    ensures { result ≡ applying.starts_at task_ops (owner_of numbers.now) (seen_in seats.now line.now) c form e i }
{
    let owner = numbers.owner(e);
    (is_waiting(standing_at(seats, owner)) && opens_member(seats, owner, e, i))
        && (is_first(seats, line, e, i, c)
            || ((is_live(standing_at(seats, c)) && is_conditional(form))
                && is_empty(seats, line, e, i)))
}

/// The task offers a wait with an open accept of the member.
pub fn opens_member(seats: &[Seat], t: u32, e: u32, i: i32) -> bool
    ensures { result ≡ offers.waits_with (offers.opens e i) (offer_in_seat (seat_of seats.now t)) }
{
    match offer_at(seats, t) {
        Offer::Wait(choices) => some_opens(choices, e, i),
        _ => false,
    }
}

fn some_opens(choices: &[Choice], e: u32, i: i32) -> bool
    ensures { result ≡ list_any (offers.opens e i) choices.now }
{
    choices.iter().any(|choice| opens(choice, e, i))
}

fn opens(choice: &Choice, e: u32, i: i32) -> bool
    ensures { result ≡ offers.opens e i choice.now }
{
    match *choice {
        Choice::Accept { e: f, i: j } => e == f && i == j,
        _ => false,
    }
}

/// The task offers a wait with an else part.
pub fn has_else(seats: &[Seat], t: u32) -> bool
    ensures { result ≡ offers.waits_with offers.is_else (offer_in_seat (seat_of seats.now t)) }
{
    match offer_at(seats, t) {
        Offer::Wait(choices) => some_is_else(choices),
        _ => false,
    }
}

fn some_is_else(choices: &[Choice]) -> bool
    ensures { result ≡ list_any offers.is_else choices.now }
{
    choices.iter().any(|choice| is_else(choice))
}

fn is_else(choice: &Choice) -> bool
    ensures { result ≡ offers.is_else choice.now }
{
    matches!(*choice, Choice::Else)
}

/// The task offers a wait whose k-th delay can be taken.
pub fn has_delay(seats: &[Seat], t: u32, k: u32) -> bool
    ensures { result ≡ offers.waits_with (offers.is_delay k) (offer_in_seat (seat_of seats.now t)) }
{
    match offer_at(seats, t) {
        Offer::Wait(choices) => some_is_delay(choices, k),
        _ => false,
    }
}

fn some_is_delay(choices: &[Choice], k: u32) -> bool
    ensures { result ≡ list_any (offers.is_delay k) choices.now }
{
    choices.iter().any(|choice| is_delay(choice, k))
}

fn is_delay(choice: &Choice, k: u32) -> bool
    ensures { result ≡ offers.is_delay k choice.now }
{
    match *choice {
        Choice::Delay { k: l } => k == l,
        _ => false,
    }
}

// The caller stands in the queue of the member.
fn queues_at(seats: &[Seat], e: u32, i: i32, c: u32) -> bool
    ensures { result ≡ applying.queues_at task_ops (seen_in seats.now []) e i c }
{
    is_queued(standing_at(seats, c)) && calls_member(seats, c, e, i)
}

/// The task calls the member.
pub fn calls_member(seats: &[Seat], c: u32, e: u32, i: i32) -> bool
    ensures { result ≡ offers.calls_in offers.is_any_form e i (offer_in_seat (seat_of seats.now c)) }
{
    match offer_at(seats, c) {
        Offer::Call { e: f, i: j, .. } => e == f && i == j,
        _ => false,
    }
}

// The caller is the first in the queue of the member.
fn is_first(seats: &[Seat], line: &[u32], e: u32, i: i32, c: u32) -> bool
    ensures { result ≡ applying.is_first c (applying.queue_of task_ops (seen_in seats.now line.now) e i) }
{
    for x in line {
        if queues_at(seats, e, i, *x) {
            return *x == c;
        }
    }
    false
}

// The queue of the member is empty.
fn is_empty(seats: &[Seat], line: &[u32], e: u32, i: i32) -> bool
    ensures { result ≡ applying.is_empty (applying.queue_of task_ops (seen_in seats.now line.now) e i) }
{
    for x in line {
        if queues_at(seats, e, i, *x) {
            return false;
        }
    }
    true
}

// No open accept alternative of the task's wait has a queued caller.
fn has_no_caller(seats: &[Seat], line: &[u32], t: u32) -> bool
    ensures { result ≡ applying.has_no_caller task_ops (seen_in seats.now line.now) (offer_in_seat (seat_of seats.now t)) }
{
    match offer_at(seats, t) {
        Offer::Wait(choices) => !some_has_caller(seats, line, choices),
        _ => true,
    }
}

fn some_has_caller(seats: &[Seat], line: &[u32], choices: &[Choice]) -> bool
    ensures { result ≡ list_any (applying.has_caller task_ops (seen_in seats.now line.now)) choices.now }
{
    choices.iter().any(|choice| has_caller(seats, line, choice))
}

fn has_caller(seats: &[Seat], line: &[u32], choice: &Choice) -> bool
    ensures { result ≡ applying.has_caller task_ops (seen_in seats.now line.now) choice.now }
{
    match *choice {
        Choice::Accept { e, i } => !is_empty(seats, line, e, i),
        _ => false,
    }
}

// The task makes a conditional call whose owner is not closed.
fn calls_open_conditionally(seats: &[Seat], line: &[u32], numbers: &Numbers, c: u32) -> bool
    ensures { result ≡ applying.calls_owner offers.is_conditional not (owner_of numbers.now) (seen_in seats.now line.now) (offer_in_seat (seat_of seats.now c)) }
{
    match offer_at(seats, c) {
        Offer::Call { form, e, .. } => is_conditional(form)
            && !is_closed(standing_at(seats, numbers.owner(e))),
        _ => false,
    }
}

// The task makes a timed call whose owner is not closed.
fn calls_open_timed(seats: &[Seat], line: &[u32], numbers: &Numbers, c: u32) -> bool
    ensures { result ≡ applying.calls_owner offers.is_timed not (owner_of numbers.now) (seen_in seats.now line.now) (offer_in_seat (seat_of seats.now c)) }
{
    match offer_at(seats, c) {
        Offer::Call { form, e, .. } => is_timed(form)
            && !is_closed(standing_at(seats, numbers.owner(e))),
        _ => false,
    }
}

// The task makes a call whose owner is closed.
fn calls_closed(seats: &[Seat], line: &[u32], numbers: &Numbers, c: u32) -> bool
    ensures { result ≡ applying.calls_owner offers.is_any_form applying.same (owner_of numbers.now) (seen_in seats.now line.now) (offer_in_seat (seat_of seats.now c)) }
{
    match offer_at(seats, c) {
        Offer::Call { e, .. } => is_closed(standing_at(seats, numbers.owner(e))),
        _ => false,
    }
}

// The task has completed, or waits with an open terminate alternative.
fn can_end(seats: &[Seat], t: u32) -> bool
    ensures { result ≡ applying.can_end task_ops (seat_of seats.now t) }
{
    is_completed(standing_at(seats, t))
        || (is_waiting(standing_at(seats, t)) && has_terminate(seats, t))
}

/// The task offers a wait with an open terminate alternative.
pub fn has_terminate(seats: &[Seat], t: u32) -> bool
    ensures { result ≡ offers.waits_with offers.is_terminate (offer_in_seat (seat_of seats.now t)) }
{
    match offer_at(seats, t) {
        Offer::Wait(choices) => some_is_terminate(choices),
        _ => false,
    }
}

fn some_is_terminate(choices: &[Choice]) -> bool
    ensures { result ≡ list_any offers.is_terminate choices.now }
{
    choices.iter().any(|choice| is_terminate(choice))
}

fn is_terminate(choice: &Choice) -> bool
    ensures { result ≡ offers.is_terminate choice.now }
{
    matches!(*choice, Choice::Terminate)
}

// Each task but main has completed, or waits with an open terminate alternative.
fn others_can_end(seats: &[Seat], line: &[u32]) -> bool
    requires { length seats.now < 2 ^ 32 }
    ensures { result ≡ applying.others_can_end task_ops (seen_in seats.now line.now) (pred (length seats.now)) }
{
    let count = seats.len() as u32;
    for t in 1..count {
        if !can_end(seats, t) {
            return false;
        }
    }
    true
}
