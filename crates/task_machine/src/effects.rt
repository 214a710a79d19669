// What each action does to the tasks.

ghost use Rattle.std.specs.Prelude.{◌≡◌, OnOk, OnErr};
ghost use Rattle.event_machine.specs.Effects.{freed, stand};
ghost use Rattle.task_model.specs.Stands.{stepped};
ghost use Rattle.task_model.specs.Rendezvous.{call_failed, past_name, took_delay, took_else};
ghost use Rattle.task_machine.specs.Table.{store};

pub use crate::aborting::abort;
pub use crate::rendezvous::{finish, meet};
use crate::seats::Seat;
use ada_tree::Memory;
use ada_value::Raised;
use event_machine::Standing;

/// The task makes its local step, and is live.
pub fn step(seats: &mut [Seat], t: u32) -> Result<(), Memory>
    ensures ok { OnOk result (seats.new ≡ freed store stepped seats.old t) }
    ensures unchanged { OnErr result (seats.new ≡ seats.old) }
{
    if (t as usize) < seats.len() {
        let seat = &mut seats[t as usize];
        seat.local.step()?;
        seat.standing = Standing::Live;
    }
    Ok(())
}

/// The task stands so, where it stood.
pub fn set_standing(seats: &mut [Seat], t: u32, standing: Standing)
    ensures { seats.new ≡ stand store seats.old t standing }
{
    if (t as usize) < seats.len() {
        let seat = &mut seats[t as usize];
        seat.standing = standing;
    }
}

/// TASKING_ERROR is raised at the call of the task, which is live.
pub fn fail(seats: &mut [Seat], c: u32)
    ensures { seats.new ≡ freed store call_failed seats.old c }
{
    if (c as usize) < seats.len() {
        let seat = &mut seats[c as usize];
        seat.local.raise_at_call(Raised::Tasking);
        seat.standing = Standing::Live;
    }
}

/// The task goes on in the else part of its wait or call, and is live.
pub fn take_else(seats: &mut [Seat], a: u32) -> Result<(), Memory>
    ensures ok { OnOk result (seats.new ≡ freed store took_else seats.old a) }
    ensures unchanged { OnErr result (seats.new ≡ seats.old) }
{
    if (a as usize) < seats.len() {
        let seat = &mut seats[a as usize];
        seat.local.reserve()?;
        seat.local.take_else();
        seat.standing = Standing::Live;
    }
    Ok(())
}

/// The task goes on behind the k-th delay of its wait, or behind the delay of its timed call, and is live.
pub fn take_delay(seats: &mut [Seat], a: u32, k: u32) -> Result<(), Memory>
    ensures ok { OnOk result (seats.new ≡ freed store (took_delay k) seats.old a) }
    ensures unchanged { OnErr result (seats.new ≡ seats.old) }
{
    if (a as usize) < seats.len() {
        let seat = &mut seats[a as usize];
        seat.local.reserve()?;
        seat.local.take_delay(k);
        seat.standing = Standing::Live;
    }
    Ok(())
}

/// The task goes on behind the next name of its abort statement, and is live.
pub(crate) fn pass(seats: &mut [Seat], t: u32)
    ensures { seats.new ≡ freed store past_name seats.old t }
{
    if (t as usize) < seats.len() {
        let seat = &mut seats[t as usize];
        seat.local.pass_name();
        seat.standing = Standing::Live;
    }
}
