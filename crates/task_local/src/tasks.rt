// One task, as the machine has it.

ghost use Rattle.std.specs.Prelude.{◌≡◌, [], slice_get, true, IfOk, OnOk, OnErr};
ghost use Rattle.event_machine.specs.Offers.{Finishes};
ghost use Rattle.task_model.specs.Calls.{values_handed};
ghost use Rattle.task_model.specs.Frames.{callers_in};
ghost use Rattle.task_model.specs.Rendezvous.{alternative_opened, finished, past_name, pending_of, returned, took_delay, took_else};
ghost use Rattle.task_model.specs.Stands.{can_step, offer_of, stepped};
ghost use Rattle.task_model.specs.Starting.{started_in, unit_of};
ghost use Rattle.task_model.specs.Tasks.{raised_there};
ghost use Rattle.task_model.specs.Waits.{alternative_for};
ghost use Rattle.task_local.specs.rendezvous.Handed.{handed_back};
ghost use Rattle.task_local.specs.OfferView.{offer_as};

use crate::Offer;
use crate::standing::actuals_here;
use crate::task_parts::TaskParts;
use ada_tree::Memory;
use ada_value::{Raised, Value};
use std::alloc::Global;
use std::marker::Model;
use task_links::Links;
use task_waits::calls::Member;

/// One task of a program. A contract sees the task of the definitions, and whether there is room for one more frame.
#[derive(Drop)]
pub struct LocalTask<'p> {
    parts: TaskParts<'p>,
}

impl<'p> Model for LocalTask<'p> {
    ghost use Rattle.std.specs.Coded.{codes};
    ghost use Rattle.ada_tree.proofs.Codes.{tree_codes};
    ghost use Rattle.task_links.specs.inner.SettingCode.{coded_setting};
    ghost use Rattle.task_local.specs.inner.Local.{Local};

    ghost Value = { Local };

    ghost coded = { Prim.hlevel (codes, tree_codes, coded_setting (Prim.hlevel (codes, tree_codes)) (Prim.hlevel (codes, tree_codes))) };

    ghost use Rattle.task_local.specs.inner.InOrder.{local_of, IsInOrder};

    ghost view = { λ a. local_of a.parts };

    ghost invariant = { λ a. IsInOrder a.parts };
}

impl<'p> LocalTask<'p> {
    /// The task of this number, from 0 the main program, at the first statement of its body, with its objects, with these integers to read,
    /// and with nothing written (9.1, 9.3). It fails by want of memory alone; a wait of 2 ^ 32 - 1 or more alternatives in its body is
    /// answered so too.
    pub fn start(
        alloc: Global,
        links: &'p Links<'p>,
        task: u32,
        input: &[i32],
    ) -> Result<LocalTask<'p>, Memory>
        ensures { IfOk result (λ t. t.task ≡ started_in links.now task (unit_of links.now.program links.now.numbers task) input.now) }
    {
        let parts = TaskParts::start(alloc, links, task, input)?;
        Ok(LocalTask { parts })
    }

    /// Makes one local step, if the task has one, and answers whether it has. After an error, which comes by want of memory, the task is as
    /// before.
    pub fn step(&mut self) -> Result<bool, Memory>
        ensures made { IfOk result (λ made. made ≡ can_step self.old.task) }
        ensures ok { OnOk result (self.new.task ≡ stepped self.old.task) }
        ensures err { OnErr result (self.new.task ≡ self.old.task) }
    {
        self.parts.step()
    }

    /// What the task offers; [`Offer::None`] exactly where it has a local step. It is a look: nothing is evaluated, and no memory is taken.
    pub fn offer<'a>(&'a self) -> Offer<'a>
        ensures { offer_as result ≡ offer_of self.now.task }
    {
        self.parts.offer()
    }

    /// The caller of the innermost opened accept body, if one is open (9.5).
    pub fn caller(&self) -> Option<u32>
        ensures { result ≡ slice_get (callers_in self.now.task.control) 0 }
    {
        self.parts.state.frames.caller()
    }

    /// Makes room for one more frame, so that the next [`resume`](LocalTask::resume), [`take_else`](LocalTask::take_else) or
    /// [`take_delay`](LocalTask::take_delay) takes no memory.
    pub fn reserve(&mut self) -> Result<(), Memory>
        ensures ok { OnOk result (self.new ≡ record { task = self.old.task; reserved = true }) }
        ensures err { OnErr result (self.new ≡ self.old) }
    {
        self.parts.reserve()
    }

    /// The values that the task hands over at its call, in place of what is in the list (6.2, 6.4.1). After an error, which comes by want
    /// of memory, the list is empty.
    pub fn actuals(&self, formals: &mut Vec<Value>) -> Result<(), Memory>
        ensures ok { OnOk result (formals.new.items ≡ values_handed self.now.task) }
        ensures err { OnErr result (formals.new.items ≡ []) }
    {
        actuals_here(&self.parts.state, formals)
    }

    /// Opens the body of the accept that is taken where the task stands, for a caller of the member `i` of the entry `e` who hands over these
    /// values: of the accept statement, or of the first open alternative of the selective wait that accepts the member (9.5, 9.7.1). It fails
    /// by want of memory, and then the task is as before; an accept whose formals are not those of its entry, as in no legal program, is
    /// answered so too.
    pub fn begin_accept(
        &mut self,
        e: u32,
        i: i32,
        caller: u32,
        formals: &[Value],
    ) -> Result<(), Memory>
        ensures ok { OnOk result (self.new.task ≡ alternative_opened caller (alternative_for self.old.task e i) formals.now self.old.task) }
        ensures err { OnErr result (self.new.task ≡ self.old.task) }
    {
        let member = Member { entry: e, index: i };
        self.parts.begin_accept(member, caller, formals)
    }

    /// The exception that is pending at the end of the accept body at which the task stands, and, where none is, the values that go back to
    /// its caller, in place of what is in the list (6.2, 11.5). Where one is pending the list is empty, and so it is after an error, which
    /// comes by want of memory.
    pub fn finals(&self, finals: &mut Vec<Value>) -> Result<Option<Raised>, Memory>
        requires { offer_of self.now.task ≡ Finishes }
        ensures pending { IfOk result (λ pending. pending ≡ pending_of self.now.task) }
        ensures ok { OnOk result (finals.new.items ≡ handed_back self.now.task) }
        ensures err { OnErr result (finals.new.items ≡ []) }
    {
        self.parts.finals(finals)
    }

    /// Ends the accept body at whose end the task stands: it goes on behind the accept, where a pending exception is raised (9.5, 11.5). It
    /// takes no memory.
    pub fn close_accept(&mut self)
        requires { offer_of self.old.task ≡ Finishes }
        ensures { self.new.task ≡ finished self.old.task }
    {
        self.parts.close_accept();
    }

    /// [`finals`](LocalTask::finals), and then [`close_accept`](LocalTask::close_accept). After an error, which comes by want of memory, the
    /// task is as before, and the list is empty.
    pub fn end_accept(&mut self, finals: &mut Vec<Value>) -> Result<Option<Raised>, Memory>
        requires { offer_of self.old.task ≡ Finishes }
        ensures pending { IfOk result (λ pending. pending ≡ pending_of self.old.task) }
        ensures values { OnOk result (finals.new.items ≡ handed_back self.old.task) }
        ensures ok { OnOk result (self.new.task ≡ finished self.old.task) }
        ensures err { OnErr result (self.new ≡ self.old) }
        ensures empty { OnErr result (finals.new.items ≡ []) }
    {
        let pending = self.finals(finals)?;
        self.close_accept();
        Ok(pending)
    }

    /// Goes on behind the call at which the task stands, with these values that come back to the variables of its actuals; the first that
    /// does not fit raises CONSTRAINT_ERROR at the call (6.4.1, 9.5). It takes no memory.
    pub fn resume(&mut self, finals: &[Value])
        requires { self.old.reserved ≡ true }
        ensures { self.new.task ≡ returned finals.now self.old.task }
    {
        self.parts.resume(finals);
    }

    /// Goes on in the else part of the conditional call or selective wait at which the task stands (9.7.1, 9.7.2). It takes no memory.
    pub fn take_else(&mut self)
        requires { self.old.reserved ≡ true }
        ensures { self.new.task ≡ took_else self.old.task }
    {
        self.parts.take_else();
    }

    /// Goes on behind the `k`-th delay of the selective wait at which the task stands, counted from 1, or behind the delay of its timed call
    /// (9.7.1, 9.7.3). It takes no memory.
    pub fn take_delay(&mut self, k: u32)
        requires { self.old.reserved ≡ true }
        ensures { self.new.task ≡ took_delay k self.old.task }
    {
        self.parts.take_delay(k);
    }

    /// Raises an exception where the task stands, as at its call (9.5, 11.5). It takes no memory.
    pub fn raise_at_call(&mut self, raised: Raised)
        ensures { self.new.task ≡ raised_there raised self.old.task }
    {
        self.parts.raise(raised);
    }

    /// Passes the next name of the abort statement at which the task stands; elsewhere nothing changes (9.10). It takes no memory.
    pub fn pass_name(&mut self)
        ensures { self.new.task ≡ past_name self.old.task }
    {
        self.parts.pass_name();
    }

    /// The bytes that the task has written (14.3).
    pub fn output(&self) -> &[u8]
        ensures { result.now ≡ self.now.task.output }
    {
        &self.parts.state.output
    }
}
