// What is seen of the tasks after the events, where one that is open offers nothing.

ghost use Rattle.std.specs.Prelude.{◌≡◌, ◌<◌, ◌^◌, length};
ghost use Rattle.task_local.specs.OfferView.{offer_as};
ghost use Rattle.task_machine.specs.Conditions.{is_closed_view};
ghost use Rattle.feasible.specs.Shown.{Shows};
ghost use Rattle.race_variant.specs.inner.Passing.{AreAnswers, seen_at, offer_seen};
ghost use Rattle.race_variant.specs.inner.Ending.{can_end_view};

use crate::asking::waits_to_terminate;
use feasible::{Judge, TaskView};
use syn_event::Numbers;
use task_local::Offer;

// How many tasks there are.
pub(crate) fn count_of(numbers: &Numbers) -> u32
    ensures is { result ≡ length numbers.now.tasks }
    ensures few { length numbers.now.tasks < 2 ^ 32 }
{
    numbers.tasks.len() as u32
}

// What is seen of a task.
fn seen<'a>(j: &'a Judge, settled: &[bool], t: u32) -> TaskView<'a>
    requires { AreAnswers j.now.tasks settled.now }
    ensures { Shows (seen_at j.now.tasks settled.now t) result }
{
    match settled.get(t as usize) {
        Some(true) => j.offer(t),
        Some(false) => TaskView::At(Offer::None),
        None => TaskView::Closed,
    }
}

// What a task offers, as it is seen.
pub(crate) fn offered<'a>(j: &'a Judge, settled: &[bool], t: u32) -> Offer<'a>
    requires { AreAnswers j.now.tasks settled.now }
    ensures { offer_as result ≡ offer_seen (seen_at j.now.tasks settled.now t) }
{
    match seen(j, settled, t) {
        TaskView::At(offer) => offer,
        TaskView::Closed | TaskView::Busy => Offer::None,
    }
}

// Whether a task is closed.
pub(crate) fn is_closed(j: &Judge, settled: &[bool], t: u32) -> bool
    requires { AreAnswers j.now.tasks settled.now }
    ensures { result ≡ is_closed_view (seen_at j.now.tasks settled.now t) }
{
    matches!(seen(j, settled, t), TaskView::Closed)
}

// Whether a task can end with the main program: it has completed, or waits with an open terminate alternative.
pub(crate) fn can_end(j: &Judge, settled: &[bool], t: u32) -> bool
    requires answers { AreAnswers j.now.tasks settled.now }
    requires asked { t < length settled.now }
    ensures { result ≡ can_end_view (seen_at j.now.tasks settled.now t) }
{
    match seen(j, settled, t) {
        TaskView::Closed => !j.served(t),
        TaskView::Busy => false,
        TaskView::At(offer) => waits_to_terminate(offer),
    }
}
