// The progress of a run.

ghost use Rattle.std.specs.Prelude.{◌≡◌, ◌==◌, ◌<◌, ◌^◌, if◌then◌else◌, true, false, length, map, replicate, IfOk};
ghost use Rattle.event_machine.specs.progress.Known.{known_at_start, admits, suits, advanced, touches, is_closed as known_closed, is_free as known_free, is_innermost, is_served_by, has_callers as known_callers, meet as known_met, part as known_parted, complete as known_completed, fall, party};
ghost use Rattle.syn_event.specs.Numbering.{owner_of};
ghost use Rattle.control_script.specs.progress.TaskRecords.{IsLinked, known_of, seen, idle_member};
ghost use Rattle.event_machine.specs.Worlds.{is_last};

use crate::progress::task_records::{
    Member, close, depth, innermost, is_closed, meet, part, server,
};
use ada_tree::Memory;
use event_machine::Event;
use std::alloc::Global;
use std::marker::Model;
use syn_event::Numbers;

/// What the events of a run tell by themselves. A contract sees of each task, by its number from 0, whether it is closed, which acceptor serves it and its
/// callers, innermost first, and whether the program has ended.
#[derive(Drop)]
pub struct Progress {
    members: Vec<Member>,
    served: u32,
    ended: bool,
}

impl Model for Progress {
    ghost use Rattle.std.specs.Prelude.{◌<◌, ◌^◌};
    ghost use Rattle.event_machine.specs.progress.Known.{Known};
    ghost use Rattle.control_script.specs.progress.TaskRecords.{IsLinked, known_of};

    ghost Value = { Known };

    ghost view = { λ p. known_of p.members.items p.ended };

    ghost invariant = { λ p. IsLinked p.members.items p.served };
}

impl Progress {
    /// Before the first event: all tasks are free. It takes the room for all that comes.
    pub fn new(alloc: Global, numbers: &Numbers) -> Result<Progress, Memory>
        ensures { IfOk result (λ p. p ≡ known_at_start (length numbers.now.tasks)) }
    {
        let members = idle_members(alloc, numbers.tasks.as_slice().len())?;
        Ok(Progress {
            members,
            served: 0,
            ended: false,
        })
    }

    /// Whether the event can come next, as far as the earlier events tell.
    pub fn admits(&self, e: &Event, numbers: &Numbers) -> bool
        ensures { result ≡ admits (owner_of numbers.now) self.now e.now }
    {
        !self.ended && suits(&self.members, self.served, e, numbers)
    }

    /// Goes on by an event that can come next.
    pub fn advance(&mut self, e: &Event, numbers: &Numbers)
        requires { admits (owner_of numbers.now) self.old e.now ≡ true }
        ensures { self.new ≡ advanced (owner_of numbers.now) self.old e.now }
    {
        self.served = change(&mut self.members, self.served, e, numbers);
        if is_last(e) {
            self.ended = true;
        }
    }

    /// Whether the event touches the task of that number.
    pub fn touches(&self, e: &Event, numbers: &Numbers, task: u32) -> bool
        ensures { result ≡ touches (owner_of numbers.now) self.now e.now task }
    {
        touched(&self.members, e, numbers, task)
    }

    /// Whether the events so far close the task of that number.
    pub fn closed(&self, task: u32) -> bool
        ensures { result ≡ known_closed self.now task }
    {
        is_closed(&self.members, task)
    }
}

// The tables of n free tasks.
fn idle_members(alloc: Global, n: usize) -> Result<Vec<Member>, Memory>
    ensures { IfOk result (λ members. members.items ≡ replicate n idle_member) }
{
    let idle = Member {
        closed: false,
        server: None,
        depth: 0,
        innermost: 0,
        outer: 0,
    };
    Ok(vec![in alloc; idle; n]?)
}

// Whether the event is the end of the program.
fn is_last(e: &Event) -> bool
    ensures { result ≡ is_last e.now }
{
    match *e {
        Event::Z => true,
        Event::R { .. }
        | Event::E { .. }
        | Event::S { .. }
        | Event::D { .. }
        | Event::C { .. }
        | Event::T { .. }
        | Event::F { .. }
        | Event::X { .. }
        | Event::B { .. } => false,
    }
}

// Whether the task is free.
fn is_free(members: &[Member], t: u32) -> bool
    ensures { result ≡ known_free (known_of members.now false) t }
{
    !is_closed(members, t) && server(members, t).is_none()
}

// Whether the task has callers.
fn has_callers(members: &[Member], a: u32) -> bool
    ensures { result ≡ known_callers (party (known_of members.now false) a).callers }
{
    !is_closed(members, a) && depth(members, a) > 0
}

// Whether the event can come next, before the end of the program.
fn suits(members: &[Member], served: u32, e: &Event, numbers: &Numbers) -> bool
    requires { IsLinked members.now served }
    ensures { result ≡ suits (owner_of numbers.now) (known_of members.now false) e.now }
{
    match *e {
        Event::R { c, e, .. } => {
            let owner = numbers.owner(e);
            is_free(members, c) && is_free(members, owner) && c != owner
        }
        Event::E { a } => is_free(members, a) && has_callers(members, a),
        Event::X { a } => is_free(members, a) && !has_callers(members, a),
        Event::S { a } | Event::D { a, .. } => is_free(members, a),
        Event::C { c, e, .. } | Event::T { c, e, .. } => {
            is_free(members, c) && !is_closed(members, numbers.owner(e))
        }
        Event::F { c, e, .. } => is_free(members, c) && is_closed(members, numbers.owner(e)),
        Event::B { t, .. } => is_free(members, t),
        Event::Z => served == 0,
    }
}

// Makes the change of an event that can come next, and answers how many tasks are served after it.
fn change(members: &mut [Member], served: u32, e: &Event, numbers: &Numbers) -> u32
    requires linked { IsLinked members.old served }
    requires suits { suits (owner_of numbers.now) (known_of members.old false) e.now ≡ true }
    ensures linked { IsLinked members.new result }
    ensures known { map (seen members.new) members.new ≡ (advanced (owner_of numbers.now) (known_of members.old false) e.now).parties }
{
    match *e {
        Event::R { c, e, .. } => start(members, served, c, numbers.owner(e)),
        Event::E { a } => finish(members, served, a),
        Event::X { a } => complete(members, served, a),
        Event::B { x, .. } => abort(members, served, x),
        Event::S { .. }
        | Event::D { .. }
        | Event::C { .. }
        | Event::T { .. }
        | Event::F { .. }
        | Event::Z => served,
    }
}

// A rendezvous of the caller with the acceptor starts.
fn start(members: &mut [Member], served: u32, c: u32, a: u32) -> u32
    requires linked { IsLinked members.old served }
    requires caller { known_free (known_of members.old false) c ≡ true }
    requires acceptor { known_free (known_of members.old false) a ≡ true }
    requires apart { (c == a) ≡ false }
    ensures linked { IsLinked members.new result }
    ensures known { map (seen members.new) members.new ≡ (known_met (known_of members.old false) c a).parties }
{
    meet(members, c, a);
    served + 1
}

// The innermost rendezvous of the acceptor ends.
fn finish(members: &mut [Member], served: u32, a: u32) -> u32
    requires linked { IsLinked members.old served }
    requires acceptor { known_free (known_of members.old false) a ≡ true }
    requires called { known_callers (party (known_of members.old false) a).callers ≡ true }
    ensures linked { IsLinked members.new result }
    ensures known { map (seen members.new) members.new ≡ (known_parted (known_of members.old false) a (party (known_of members.old false) a).callers).parties }
{
    part(members, a);
    served - 1
}

// The task completes.
fn complete(members: &mut [Member], served: u32, a: u32) -> u32
    requires linked { IsLinked members.old served }
    requires free { known_free (known_of members.old false) a ≡ true }
    requires uncalled { known_callers (party (known_of members.old false) a).callers ≡ false }
    ensures linked { IsLinked members.new result }
    ensures known { map (seen members.new) members.new ≡ (known_completed (known_of members.old false) a).parties }
{
    close(members, a);
    served
}

// The task is aborted; a closed one stays as it is.
fn abort(members: &mut [Member], served: u32, x: u32) -> u32
    requires { IsLinked members.old served }
    ensures linked { IsLinked members.new result }
    ensures known { map (seen members.new) members.new ≡ (if known_closed (known_of members.old false) x then known_of members.old false else fall (known_of members.old false) x).parties }
{
    if is_closed(members, x) {
        return served;
    }
    let callers = depth(members, x);
    close(members, x);
    served - callers
}

// Whether the event touches the task.
fn touched(members: &[Member], e: &Event, numbers: &Numbers, task: u32) -> bool
    ensures { result ≡ touches (owner_of numbers.now) (known_of members.now false) e.now task }
{
    match *e {
        Event::R { c, e, .. }
        | Event::C { c, e, .. }
        | Event::T { c, e, .. }
        | Event::F { c, e, .. } => task == c || task == numbers.owner(e),
        Event::E { a } => task == a || is_innermost(members, a, task),
        Event::S { a } | Event::D { a, .. } | Event::X { a } => task == a,
        Event::B { t, x } => task == t || task == x || is_served_by(members, task, x),
        Event::Z => true,
    }
}

// Whether the task is the innermost caller of the acceptor.
fn is_innermost(members: &[Member], a: u32, task: u32) -> bool
    ensures { result ≡ is_innermost task (party (known_of members.now false) a).callers }
{
    has_callers(members, a) && task == innermost(members, a)
}

// Whether the acceptor serves the task.
fn is_served_by(members: &[Member], task: u32, a: u32) -> bool
    ensures { result ≡ is_served_by a (party (known_of members.now false) task) }
{
    server(members, task) == Some(a)
}
