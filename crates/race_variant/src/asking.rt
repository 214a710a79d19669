// Tests of offers.

ghost use Rattle.std.specs.Prelude.{◌≡◌};
ghost use Rattle.std.specs.List.{list_any};
ghost use Rattle.event_machine.specs.Offers.{waits_with, opens, is_else, is_terminate, is_finish, is_end};
ghost use Rattle.task_local.specs.OfferView.{offer_as};

use event_machine::Choice;
use task_local::Offer;

// The offer is a wait with an open accept of the member.
pub(crate) fn waits_for(offer: Offer, e: u32, i: i32) -> bool
    ensures { result ≡ waits_with (opens e i) (offer_as offer.entry) }
{
    match offer {
        Offer::Wait(choices) => some_opens(choices, e, i),
        _ => false,
    }
}

fn some_opens(choices: &[Choice], e: u32, i: i32) -> bool
    ensures { result ≡ list_any (opens e i) choices.now }
{
    choices.iter().any(|choice| opens(choice, e, i))
}

fn opens(choice: &Choice, e: u32, i: i32) -> bool
    ensures { result ≡ opens e i choice.now }
{
    match *choice {
        Choice::Accept { e: f, i: j } => e == f && i == j,
        _ => false,
    }
}

// The offer is a wait with an else part.
pub(crate) fn waits_with_else(offer: Offer) -> bool
    ensures { result ≡ waits_with is_else (offer_as offer.entry) }
{
    match offer {
        Offer::Wait(choices) => some_is_else(choices),
        _ => false,
    }
}

fn some_is_else(choices: &[Choice]) -> bool
    ensures { result ≡ list_any is_else choices.now }
{
    choices.iter().any(|choice| is_else(choice))
}

fn is_else(choice: &Choice) -> bool
    ensures { result ≡ is_else choice.now }
{
    matches!(*choice, Choice::Else)
}

// The offer is a wait with an open terminate alternative.
pub(crate) fn waits_to_terminate(offer: Offer) -> bool
    ensures { result ≡ waits_with is_terminate (offer_as offer.entry) }
{
    match offer {
        Offer::Wait(choices) => some_is_terminate(choices),
        _ => false,
    }
}

fn some_is_terminate(choices: &[Choice]) -> bool
    ensures { result ≡ list_any is_terminate choices.now }
{
    choices.iter().any(|choice| is_terminate(choice))
}

fn is_terminate(choice: &Choice) -> bool
    ensures { result ≡ is_terminate choice.now }
{
    matches!(*choice, Choice::Terminate)
}

// The offer is that of a task at the end of its innermost accept body.
pub(crate) fn finishes(offer: Offer) -> bool
    ensures { result ≡ is_finish (offer_as offer.entry) }
{
    matches!(offer, Offer::Finish)
}

// The offer is that of a task at the end of its own body.
pub(crate) fn ends(offer: Offer) -> bool
    ensures { result ≡ is_end (offer_as offer.entry) }
{
    matches!(offer, Offer::End)
}
