// The lines of a verdict.

ghost use Rattle.std.specs.Prelude.{◌≡◌, ◌<◌, ◌∷◌, [], pred, length, All, Some, option_copied};
ghost use Rattle.ded_io.specs.Counts.{HasCause};
ghost use Rattle.ded_io.specs.Written.{Wrote, ◌⧺◌};
ghost use Rattle.syn_event.specs.Numbering.{task_at};
ghost use Rattle.task_machine.specs.Conditions.{tasks_to, needed_of};
ghost use Rattle.feasible.specs.Failing.{view_at};
ghost use Rattle.feasible.specs.Keeping.{IsSettled};
ghost use Rattle.divergence.specs.JudgeText.{report_text, refused_word, refused_text, held_text, cause_word, cause_line, event_line, title_of, task_part, parts_of, task_parts, once};
ghost use Rattle.divergence.specs.Seen.{AreSettled};
ghost use Rattle.divergence.specs.inner.Below.{tasks_below};
ghost use Rattle.divergence.specs.ViewText.{view_lines};

use crate::views::{put_line, put_view};
use ada_tree::Names;
use ded_io::{Sink, SinkError};
use event_machine::Event;
use feasible::{Cause, Judge, Verdict, Why};
use syn_event::{Numbers, TaskInfo, show, show_task};

/// Appends the lines of a verdict.
///
/// A feasible list of events has one line, with `count`, the number of its events. Else `e` is the event at the verdict's place, and the lines
/// are that place, the event, and then: why it can't happen, and each task that it needs, once and in order, with what is seen of it; or
/// the task that made as many local steps as the judge allows, with that number.
///
/// `v` is the verdict of the events given to `j`, and the numbers and names are those of its program. After an error a front of the lines
/// was appended. It takes no memory.
#[tactic(auto, using(ded_io::proofs::Writes::writes))]
pub fn report<K: Sink>(
    v: &Verdict,
    count: u32,
    e: Option<&Event>,
    j: &Judge<'_>,
    numbers: &Numbers,
    names: &Names,
    out: &mut K,
) -> Result<(), SinkError>
    requires numbers { numbers.now ≡ j.now.numbers }
    requires settled { AreSettled j.now.tasks numbers.now v.now (option_copied e) }
    ensures bytes { Wrote result (K.told out.old) (K.told out.new) (report_text names.now numbers.now j.now.bound (view_at j.now.tasks) count v.now (option_copied e.entry)) }
    ensures cause { HasCause (K.faults out.old) (K.faults out.new) result }
{
    match *v {
        Verdict::Feasible => put_line(b"feasible ", count as u64, out),
        Verdict::Infeasible { at, why } => match e {
            Some(e) => put_refused(at, why, e, j, numbers, names, out),
            None => Ok(()),
        },
        Verdict::Unsettled { at, task } => match e {
            Some(e) => put_held(at, task, e, j.bound(), numbers, names, out),
            None => Ok(()),
        },
    }
}

// An event that can't happen.
#[tactic(auto, using(ded_io::proofs::Writes::writes))]
fn put_refused<K: Sink>(
    at: u32,
    why: Why,
    e: &Event,
    j: &Judge<'_>,
    numbers: &Numbers,
    names: &Names,
    out: &mut K,
) -> Result<(), SinkError>
    requires { All (IsSettled j.now.tasks) (needed_of numbers.now e.now) }
    ensures bytes { Wrote result (K.told out.old) (K.told out.new) (refused_text names.now numbers.now (view_at j.now.tasks) at why e.now) }
    ensures cause { HasCause (K.faults out.old) (K.faults out.new) result }
{
    put_line(refused_word(), at as u64, out)?;
    put_event(e, out)?;
    put_cause(why, out)?;
    put_needed(e, j, numbers, names, out)
}

// The word before the place of an event that can't happen.
#[tactic(auto, unfolding(crate::specs::JudgeText::refused_word))]
fn refused_word() -> &'static [u8]
    ensures { result.now ≡ refused_word }
{
    b"infeasible "
}

// An event of which it is not known whether it can happen.
#[tactic(auto, using(ded_io::proofs::Writes::writes))]
fn put_held<K: Sink>(
    at: u32,
    task: u32,
    e: &Event,
    bound: u64,
    numbers: &Numbers,
    names: &Names,
    out: &mut K,
) -> Result<(), SinkError>
    ensures bytes { Wrote result (K.told out.old) (K.told out.new) (held_text names.now numbers.now bound at task e.now) }
    ensures cause { HasCause (K.faults out.old) (K.faults out.new) result }
{
    put_line(b"unsettled ", at as u64, out)?;
    put_event(e, out)?;
    put_title(task, numbers, names, out)?;
    put_line(b" ", bound, out)
}

// The line of the event.
#[tactic(auto, using(ded_io::proofs::Writes::writes))]
fn put_event<K: Sink>(e: &Event, out: &mut K) -> Result<(), SinkError>
    ensures bytes { Wrote result (K.told out.old) (K.told out.new) (event_line e.now) }
    ensures cause { HasCause (K.faults out.old) (K.faults out.new) result }
{
    out.put(b"event ")?;
    show(e, out)?;
    out.put(b"\n")
}

// The line that says why.
#[tactic(auto, using(ded_io::proofs::Writes::writes))]
fn put_cause<K: Sink>(why: Why, out: &mut K) -> Result<(), SinkError>
    ensures bytes { Wrote result (K.told out.old) (K.told out.new) (cause_line why) }
    ensures cause { HasCause (K.faults out.old) (K.faults out.new) result }
{
    out.put(b"cause ")?;
    out.put(word_of(why.cause))?;
    put_line(b" ", why.task as u64, out)
}

// The word of a cause.
fn word_of(cause: Cause) -> &'static [u8]
    ensures { result.now ≡ cause_word cause }
{
    match cause {
        Cause::Closed => b"closed",
        Cause::Busy => b"busy",
        Cause::NotClosed => b"open",
        Cause::Offer => b"offer",
    }
}

// The number and the name of a task.
#[tactic(auto, using(ded_io::proofs::Writes::writes))]
fn put_title<K: Sink>(
    task: u32,
    numbers: &Numbers,
    names: &Names,
    out: &mut K,
) -> Result<(), SinkError>
    ensures bytes { Wrote result (K.told out.old) (K.told out.new) (title_of names.now numbers.now task) }
    ensures cause { HasCause (K.faults out.old) (K.faults out.new) result }
{
    match info_of(numbers, task) {
        Some(info) => show_task(names, task, info, out),
        None => Ok(()),
    }
}

// The task of that number.
fn info_of(numbers: &Numbers, task: u32) -> Option<&TaskInfo>
    ensures { option_copied result ≡ task_at numbers.now task }
{
    numbers.tasks.get(task as usize)
}

// A task with what is seen of it.
#[tactic(auto, using(ded_io::proofs::Writes::writes))]
fn put_task<K: Sink>(
    task: u32,
    j: &Judge<'_>,
    numbers: &Numbers,
    names: &Names,
    out: &mut K,
) -> Result<(), SinkError>
    requires { IsSettled j.now.tasks task }
    ensures bytes { Wrote result (K.told out.old) (K.told out.new) (task_part names.now numbers.now (view_at j.now.tasks) task) }
    ensures cause { HasCause (K.faults out.old) (K.faults out.new) result }
{
    put_title(task, numbers, names, out)?;
    out.put(b"\n")?;
    put_seen(task, j, out)
}

// What is seen of a task.
#[tactic(auto, using(crate::proofs::Telling::seen))]
fn put_seen<K: Sink>(task: u32, j: &Judge<'_>, out: &mut K) -> Result<(), SinkError>
    requires { IsSettled j.now.tasks task }
    ensures bytes { Wrote result (K.told out.old) (K.told out.new) (view_lines (view_at j.now.tasks task)) }
    ensures cause { HasCause (K.faults out.old) (K.faults out.new) result }
{
    put_view(j.offer(task), out)
}

// One task.
#[tactic(auto, using(ded_io::proofs::Writes::writes))]
fn put_one<K: Sink>(
    task: u32,
    j: &Judge<'_>,
    numbers: &Numbers,
    names: &Names,
    out: &mut K,
) -> Result<(), SinkError>
    requires { All (IsSettled j.now.tasks) (task ∷ []) }
    ensures bytes { Wrote result (K.told out.old) (K.told out.new) (parts_of names.now numbers.now (view_at j.now.tasks) (task ∷ [])) }
    ensures cause { HasCause (K.faults out.old) (K.faults out.new) result }
{
    put_task(task, j, numbers, names, out)?;
    Ok(())
}

// Two tasks.
#[tactic(auto, using(ded_io::proofs::Writes::writes))]
fn put_two<K: Sink>(
    caller: u32,
    owner: u32,
    j: &Judge<'_>,
    numbers: &Numbers,
    names: &Names,
    out: &mut K,
) -> Result<(), SinkError>
    requires { All (IsSettled j.now.tasks) (caller ∷ owner ∷ []) }
    ensures bytes { Wrote result (K.told out.old) (K.told out.new) (parts_of names.now numbers.now (view_at j.now.tasks) (caller ∷ owner ∷ [])) }
    ensures cause { HasCause (K.faults out.old) (K.faults out.new) result }
{
    put_task(caller, j, numbers, names, out)?;
    put_task(owner, j, numbers, names, out)?;
    Ok(())
}

// A caller and the owner of the entry, which may be one task.
fn put_both<K: Sink>(
    caller: u32,
    owner: u32,
    j: &Judge<'_>,
    numbers: &Numbers,
    names: &Names,
    out: &mut K,
) -> Result<(), SinkError>
    requires { All (IsSettled j.now.tasks) (caller ∷ owner ∷ []) }
    ensures bytes { Wrote result (K.told out.old) (K.told out.new) (parts_of names.now numbers.now (view_at j.now.tasks) (once caller owner)) }
    ensures cause { HasCause (K.faults out.old) (K.faults out.new) result }
{
    if caller == owner {
        put_one(caller, j, numbers, names, out)
    } else {
        put_two(caller, owner, j, numbers, names, out)
    }
}

// All tasks, from 0 to the last.
fn put_all<K: Sink>(
    last: u32,
    j: &Judge<'_>,
    numbers: &Numbers,
    names: &Names,
    out: &mut K,
) -> Result<(), SinkError>
    requires { All (IsSettled j.now.tasks) (tasks_to last) }
    ensures bytes { Wrote result (K.told out.old) (K.told out.new) (parts_of names.now numbers.now (view_at j.now.tasks) (tasks_to last)) }
    ensures cause { HasCause (K.faults out.old) (K.faults out.new) result }
{
    put_to_last(last, j, numbers, names, out)
}

// All tasks before the last one, and that one.
#[tactic(auto, using(ded_io::proofs::Writes::writes))]
fn put_to_last<K: Sink>(
    last: u32,
    j: &Judge<'_>,
    numbers: &Numbers,
    names: &Names,
    out: &mut K,
) -> Result<(), SinkError>
    requires { All (IsSettled j.now.tasks) (tasks_to last) }
    ensures bytes { Wrote result (K.told out.old) (K.told out.new) (parts_of names.now numbers.now (view_at j.now.tasks) (tasks_below last) ⧺ task_part names.now numbers.now (view_at j.now.tasks) last) }
    ensures cause { HasCause (K.faults out.old) (K.faults out.new) result }
{
    put_before(last, j, numbers, names, out)?;
    put_task(last, j, numbers, names, out)
}

// All tasks before the last one.
#[tactic(auto, using(crate::proofs::Telling::telling))]
fn put_before<K: Sink>(
    last: u32,
    j: &Judge<'_>,
    numbers: &Numbers,
    names: &Names,
    out: &mut K,
) -> Result<(), SinkError>
    requires { All (IsSettled j.now.tasks) (tasks_to last) }
    ensures bytes { Wrote result (K.told out.old) (K.told out.new) (parts_of names.now numbers.now (view_at j.now.tasks) (tasks_below last)) }
    ensures cause { HasCause (K.faults out.old) (K.faults out.new) result }
{
    for task in 0..last {
        match put_task(task, j, numbers, names, out) {
            Ok(()) => {}
            Err(e) => return Err(e),
        }
    }
    Ok(())
}

// The number of the last task.
fn last_of(numbers: &Numbers) -> u32
    ensures { result ≡ pred (length numbers.now.tasks) }
{
    match numbers.tasks.as_slice() {
        [_, rest @ ..] => rest.len() as u32,
        [] => 0,
    }
}

// Each task that the event needs, once.
fn put_needed<K: Sink>(
    e: &Event,
    j: &Judge<'_>,
    numbers: &Numbers,
    names: &Names,
    out: &mut K,
) -> Result<(), SinkError>
    requires { All (IsSettled j.now.tasks) (needed_of numbers.now e.now) }
    ensures bytes { Wrote result (K.told out.old) (K.told out.new) (task_parts names.now numbers.now (view_at j.now.tasks) e.now) }
    ensures cause { HasCause (K.faults out.old) (K.faults out.new) result }
{
    match *e {
        Event::R { c, e, .. } => put_both(c, numbers.owner(e), j, numbers, names, out),
        Event::E { a } => put_one(a, j, numbers, names, out),
        Event::S { a } => put_one(a, j, numbers, names, out),
        Event::D { a, .. } => put_one(a, j, numbers, names, out),
        Event::C { c, .. } => put_one(c, j, numbers, names, out),
        Event::T { c, .. } => put_one(c, j, numbers, names, out),
        Event::F { c, .. } => put_one(c, j, numbers, names, out),
        Event::X { a } => put_one(a, j, numbers, names, out),
        Event::B { t, .. } => put_one(t, j, numbers, names, out),
        Event::Z => put_all(last_of(numbers), j, numbers, names, out),
    }
}
