// What the offer of a task proposes of each letter.

ghost use Rattle.std.specs.Prelude.{◌≡◌, ◌<◌, ◌^◌, not, length, option_map};
ghost use Rattle.event_machine.specs.declared.Event.TheVariants as event;
ghost use Rattle.event_machine.specs.Offers.{is_any_form, is_conditional, is_timed, aborted_by};
ghost use Rattle.race_variant.specs.inner.Passing.{AreAnswers, seen_at, offer_seen};
ghost use Rattle.race_variant.specs.inner.Proposing.{only_if, is_awaited, is_gone, with_call, others_can_end, proposed};

use crate::asking::{ends, finishes, waits_for, waits_with_else};
use crate::seeing::{can_end, count_of, is_closed, offered};
use event_machine::{CallForm, Event};
use feasible::Judge;
use syn_event::Numbers;
use task_local::Offer;

// The letters of events.
#[derive(Clone, Copy)]
pub(crate) enum Letter {
    R,
    E,
    S,
    D,
    C,
    T,
    F,
    X,
    B,
    Z,
}

// The one event of the letter that the task's offer proposes and whose conditions hold; delays, of which there may be more, apart.
pub(crate) fn propose(
    j: &Judge,
    numbers: &Numbers,
    settled: &[bool],
    letter: Letter,
    t: u32,
) -> Option<Event>
    requires answers { AreAnswers j.now.tasks settled.now }
    requires told { length settled.now ≡ length numbers.now.tasks }
    requires few { length numbers.now.tasks < 2 ^ 32 }
    ensures { result ≡ proposed numbers.now (seen_at j.now.tasks settled.now) letter t (offer_seen (seen_at j.now.tasks settled.now t)) }
{
    match letter {
        Letter::R => propose_start(j, numbers, settled, t),
        Letter::E => propose_if(finishes(offered(j, settled, t)), Event::E { a: t }),
        Letter::S => propose_if(waits_with_else(offered(j, settled, t)), Event::S { a: t }),
        Letter::D => None,
        Letter::C => propose_else(j, numbers, settled, t),
        Letter::T => propose_expiry(j, numbers, settled, t),
        Letter::F => propose_failure(j, numbers, settled, t),
        Letter::X => propose_if(t != 0 && ends(offered(j, settled, t)), Event::X { a: t }),
        Letter::B => propose_abort(j, settled, t),
        Letter::Z => propose_if(
            t == 0 && (ends(offered(j, settled, t)) && others_can_end(j, numbers, settled)),
            Event::Z,
        ),
    }
}

fn propose_if(test: bool, e: Event) -> Option<Event>
    ensures { result ≡ only_if test e }
{
    if test { Some(e) } else { None }
}

// A call of which the owner waits with an open accept of the member.
fn propose_start(j: &Judge, numbers: &Numbers, settled: &[bool], t: u32) -> Option<Event>
    requires { AreAnswers j.now.tasks settled.now }
    ensures { result ≡ with_call is_any_form (is_awaited numbers.now (seen_at j.now.tasks settled.now)) (event.R t) (offer_seen (seen_at j.now.tasks settled.now t)) }
{
    match offered(j, settled, t) {
        Offer::Call { e, i, .. } => propose_if(
            waits_for(offered(j, settled, numbers.owner(e)), e, i),
            Event::R { c: t, e, i },
        ),
        _ => None,
    }
}

// The else part of a conditional call, of which the owner is not closed.
fn propose_else(j: &Judge, numbers: &Numbers, settled: &[bool], t: u32) -> Option<Event>
    requires { AreAnswers j.now.tasks settled.now }
    ensures { result ≡ with_call is_conditional (λ e i. not (is_gone numbers.now (seen_at j.now.tasks settled.now) e i)) (event.C t) (offer_seen (seen_at j.now.tasks settled.now t)) }
{
    match offered(j, settled, t) {
        Offer::Call { form, e, i } => propose_if(
            matches!(form, CallForm::Conditional) && !is_closed(j, settled, numbers.owner(e)),
            Event::C { c: t, e, i },
        ),
        _ => None,
    }
}

// The delay of a timed call, of which the owner is not closed.
fn propose_expiry(j: &Judge, numbers: &Numbers, settled: &[bool], t: u32) -> Option<Event>
    requires { AreAnswers j.now.tasks settled.now }
    ensures { result ≡ with_call is_timed (λ e i. not (is_gone numbers.now (seen_at j.now.tasks settled.now) e i)) (event.T t) (offer_seen (seen_at j.now.tasks settled.now t)) }
{
    match offered(j, settled, t) {
        Offer::Call { form, e, i } => propose_if(
            matches!(form, CallForm::Timed) && !is_closed(j, settled, numbers.owner(e)),
            Event::T { c: t, e, i },
        ),
        _ => None,
    }
}

// A call of which the owner is closed.
fn propose_failure(j: &Judge, numbers: &Numbers, settled: &[bool], t: u32) -> Option<Event>
    requires { AreAnswers j.now.tasks settled.now }
    ensures { result ≡ with_call is_any_form (is_gone numbers.now (seen_at j.now.tasks settled.now)) (event.F t) (offer_seen (seen_at j.now.tasks settled.now t)) }
{
    match offered(j, settled, t) {
        Offer::Call { e, i, .. } => propose_if(
            is_closed(j, settled, numbers.owner(e)),
            Event::F { c: t, e, i },
        ),
        _ => None,
    }
}

// An abort.
fn propose_abort(j: &Judge, settled: &[bool], t: u32) -> Option<Event>
    requires { AreAnswers j.now.tasks settled.now }
    ensures { result ≡ option_map (event.B t) (aborted_by (offer_seen (seen_at j.now.tasks settled.now t))) }
{
    match offered(j, settled, t) {
        Offer::Abort { x } => Some(Event::B { t, x }),
        _ => None,
    }
}

// Each task beside the main program can end with it.
fn others_can_end(j: &Judge, numbers: &Numbers, settled: &[bool]) -> bool
    requires answers { AreAnswers j.now.tasks settled.now }
    requires told { length settled.now ≡ length numbers.now.tasks }
    requires few { length numbers.now.tasks < 2 ^ 32 }
    ensures { result ≡ others_can_end numbers.now (seen_at j.now.tasks settled.now) }
{
    let count = count_of(numbers);
    for t in 1..count {
        if !can_end(j, settled, t) {
            return false;
        }
    }
    true
}
