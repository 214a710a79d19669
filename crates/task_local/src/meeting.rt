// What a rendezvous and the other parts of calls and waits make of a task.

ghost use Rattle.std.specs.Prelude.{◌≡◌, [], true, IfOk, OnOk, OnErr};
ghost use Rattle.event_machine.specs.Offers.{Finishes};
ghost use Rattle.task_model.specs.Rendezvous.{alternative_opened, finished, pending_of, returned, took_delay, took_else};
ghost use Rattle.task_model.specs.Stands.{offer_of};
ghost use Rattle.task_model.specs.Waits.{alternative_for};
ghost use Rattle.task_local.specs.rendezvous.Handed.{handed_back};
ghost use Rattle.task_local.specs.inner.InOrder.{task_of, IsInOrder};

use crate::rendezvous as rendezvous;
use crate::task_parts::TaskParts;
use ada_tree::Memory;
use ada_value::{Raised, Value};
use task_waits::calls::Member;

impl<'p> TaskParts<'p> {
    /// Opens the body of the accept that is taken for a caller of this member, who hands over these values.
    pub(crate) fn begin_accept(
        &mut self,
        member: Member,
        caller: u32,
        formals: &[Value],
    ) -> Result<(), Memory>
        requires { IsInOrder self.old }
        ensures ok { OnOk result (task_of self.new ≡ alternative_opened caller (alternative_for (task_of self.old) member.entry member.index) formals.now (task_of self.old)) }
        ensures err { OnErr result (task_of self.new ≡ task_of self.old) }
        ensures in_order { IsInOrder self.new }
    {
        rendezvous::open_accept(&mut self.state, member, caller, formals)?;
        self.renew();
        Ok(())
    }

    /// The exception that is pending at the end of the accept body at which the task stands, and the values that go back.
    pub(crate) fn finals(&self, finals: &mut Vec<Value>) -> Result<Option<Raised>, Memory>
        requires { offer_of (task_of self.now) ≡ Finishes }
        ensures pending { IfOk result (λ pending. pending ≡ pending_of (task_of self.now)) }
        ensures ok { OnOk result (finals.new.items ≡ handed_back (task_of self.now)) }
        ensures err { OnErr result (finals.new.items ≡ []) }
    {
        rendezvous::finals_of(&self.state, finals)
    }

    /// Goes on behind the accept at the end of whose body the task stands.
    pub(crate) fn close_accept(&mut self)
        requires in_order { IsInOrder self.old }
        requires finishes { offer_of (task_of self.old) ≡ Finishes }
        ensures task { task_of self.new ≡ finished (task_of self.old) }
        ensures in_order { IsInOrder self.new }
    {
        rendezvous::close_accept(&mut self.state);
        self.renew();
    }

    /// Goes on behind the call at which the task stands, with these values that come back.
    pub(crate) fn resume(&mut self, finals: &[Value])
        requires in_order { IsInOrder self.old }
        requires reserved { self.old.state.frames.reserved ≡ true }
        ensures task { task_of self.new ≡ returned finals.now (task_of self.old) }
        ensures in_order { IsInOrder self.new }
    {
        rendezvous::come_back(&mut self.state, finals);
        self.renew();
    }

    /// Takes the else part of the call or wait at which the task stands; an abort statement has none.
    pub(crate) fn take_else(&mut self)
        requires in_order { IsInOrder self.old }
        requires reserved { self.old.state.frames.reserved ≡ true }
        ensures task { task_of self.new ≡ took_else (task_of self.old) }
        ensures in_order { IsInOrder self.new }
    {
        if self.passed == 0 {
            rendezvous::take_else(&mut self.state);
            self.renew();
        }
    }

    /// Takes the `k`-th delay of the wait at which the task stands, or the delay of its timed call; an abort statement has none.
    pub(crate) fn take_delay(&mut self, k: u32)
        requires in_order { IsInOrder self.old }
        requires reserved { self.old.state.frames.reserved ≡ true }
        ensures task { task_of self.new ≡ took_delay k (task_of self.old) }
        ensures in_order { IsInOrder self.new }
    {
        if self.passed == 0 {
            rendezvous::take_delay(&mut self.state, k);
            self.renew();
        }
    }
}
