// A task in the machine, and what is read of it.

ghost use Rattle.std.specs.Prelude.{◌≡◌, slice_get};
ghost use Rattle.event_machine.specs.States.{is_live, is_waiting, is_queued, is_completed, is_closed, is_abnormal, is_served_by};
ghost use Rattle.task_model.specs.Frames.{callers_in};
ghost use Rattle.task_local.specs.OfferView.{offer_as};
ghost use Rattle.task_machine.specs.Table.{seat_of, offer_in_seat};

use event_machine::Standing;
use std::marker::Model;
use task_local::{LocalTask, Offer};

/// A task and its standing.
#[derive(Drop)]
pub struct Seat<'p> {
    pub local: LocalTask<'p>,
    pub standing: Standing,
}

impl<'p> Model for Seat<'p> {
    ghost use Rattle.std.specs.Coded.{codes};
    ghost use Rattle.ada_tree.proofs.Codes.{tree_codes};
    ghost use Rattle.event_machine.specs.States as seats;
    ghost use Rattle.task_links.specs.inner.SettingCode.{coded_setting};
    ghost use Rattle.task_model.specs.Tasks.{Task};

    ghost Value = { seats.Seat Task };

    ghost coded = { Prim.hlevel (codes, tree_codes, coded_setting (Prim.hlevel (codes, tree_codes)) (Prim.hlevel (codes, tree_codes))) };

    ghost view = { λ s. record { local = s.local.task; standing = s.standing } };
}

/// How the task of this number stands; past the last task all have completed.
pub fn standing_at(seats: &[Seat], t: u32) -> Standing
    ensures { result ≡ (seat_of seats.now t).standing }
{
    match seats.get(t as usize) {
        Some(seat) => seat.standing,
        None => Standing::Completed,
    }
}

/// What the task of this number offers.
pub fn offer_at<'a>(seats: &'a [Seat], t: u32) -> Offer<'a>
    ensures { offer_as result ≡ offer_in_seat (seat_of seats.now t) }
{
    match seats.get(t as usize) {
        Some(seat) => seat.local.offer(),
        None => Offer::End,
    }
}

/// The caller of the innermost accept body that the task of this number has opened.
pub fn caller_at(seats: &[Seat], a: u32) -> Option<u32>
    ensures { result ≡ slice_get (callers_in (seat_of seats.now a).local.control) 0 }
{
    match seats.get(a as usize) {
        Some(seat) => seat.local.caller(),
        None => None,
    }
}

/// It can act by itself.
pub fn is_live(standing: Standing) -> bool
    ensures { result ≡ is_live standing }
{
    matches!(standing, Standing::Live)
}

/// It waits at an accept statement or a selective wait.
pub fn is_waiting(standing: Standing) -> bool
    ensures { result ≡ is_waiting standing }
{
    matches!(standing, Standing::Waiting)
}

/// It stands in the queue of the entry that it calls.
pub fn is_queued(standing: Standing) -> bool
    ensures { result ≡ is_queued standing }
{
    matches!(standing, Standing::Queued)
}

/// It has completed, by itself or by an abort.
pub fn is_completed(standing: Standing) -> bool
    ensures { result ≡ is_completed standing }
{
    matches!(standing, Standing::Completed | Standing::Killed)
}

/// Closed: completed or abnormal.
pub fn is_closed(standing: Standing) -> bool
    ensures { result ≡ is_closed standing }
{
    match standing {
        Standing::Served { abnormal, .. } => abnormal,
        Standing::Completed | Standing::Killed => true,
        _ => false,
    }
}

/// It is an abnormal caller.
pub fn is_abnormal(standing: Standing) -> bool
    ensures { result ≡ is_abnormal standing }
{
    match standing {
        Standing::Served { abnormal, .. } => abnormal,
        _ => false,
    }
}

/// It is the caller in a rendezvous with the acceptor `a`, abnormal or not.
pub fn is_served_by(a: u32, standing: Standing) -> bool
    ensures { result ≡ is_served_by a standing }
{
    match standing {
        Standing::Served { by, .. } => by == a,
        _ => false,
    }
}
