// The operations of the events, one after the other.

ghost use Rattle.std.specs.Prelude.{◌≡◌, ◌++◌, [], ◌∷◌, map, length, IfOk, OnOk, if◌then◌else◌};
ghost use Rattle.control_script.specs.declared.Op.TheVariants.{Go, Hold};
ghost use Rattle.control_script.specs.Script.{open_tasks, to_close, after_abort, operations, script as script_of};
ghost use Rattle.event_machine.specs.Worlds.{is_last};
ghost use Rattle.event_machine.specs.progress.Known.{is_closed};
ghost use Rattle.syn_event.specs.Numbering.{owner_of};

use super::Op;
use crate::kinds::{
    KIND_ABORT, KIND_CALL_ELSE, KIND_COMPLETE, KIND_DELAY, KIND_ELSE, KIND_END, KIND_EXPIRE,
    KIND_FAIL, KIND_FINISH, KIND_START,
};
use crate::progress::Progress;
use ada_tree::Memory;
use event_machine::Event;
use std::alloc::Global;
use syn_event::Numbers;

/// The script of a sequence: the operations of its events, in order, up to the first event that cannot come next by what the earlier ones tell. There, and
/// where the sequence ends before the program does, `Hold` follows. It takes time linear in the events. The only error is want of memory.
pub fn script(alloc: Global, events: &[Event], numbers: &Numbers) -> Result<Vec<Op>, Memory>
    ensures { IfOk result (λ ops. ops.items ≡ script_of (owner_of numbers.now) (length numbers.now.tasks) events.now) }
{
    let mut progress = Progress::new(alloc, numbers)?;
    let mut ops = Vec::new(alloc);
    let mut ended = false;
    for e in events {
        if !progress.admits(e, numbers) {
            return held(ops, ended);
        }
        put_operations(&mut ops, &progress, e, numbers)?;
        progress.advance(e, numbers);
        ended = is_last(e);
    }
    held(ops, ended)
}

// Behind the last event the controller waits for ever, unless the program has ended.
fn held(mut ops: Vec<Op>, ended: bool) -> Result<Vec<Op>, Memory>
    ensures { IfOk result (λ all. all.items ≡ ops.items ++ (if ended then [] else Hold ∷ [])) }
{
    if !ended {
        ops.push(Op::Hold)?;
    }
    Ok(ops)
}

// Whether the event is the end of the program.
fn is_last(e: &Event) -> bool
    ensures { result ≡ is_last e.now }
{
    matches!(*e, Event::Z)
}

// Appends the operations of an event.
fn put_operations(
    ops: &mut Vec<Op>,
    progress: &Progress,
    e: &Event,
    numbers: &Numbers,
) -> Result<(), Memory>
    requires tasks { length progress.now.parties ≡ length numbers.now.tasks }
    ensures { OnOk result (ops.new.items ≡ ops.old.items ++ operations (owner_of numbers.now) progress.now e.now) }
{
    match *e {
        Event::R { c, e, i } => {
            let a = numbers.owner(e);
            put_three(
                ops,
                go(c, KIND_START, e, i),
                go(a, KIND_START, e, i),
                Op::Done { task: a },
            )
        }
        Event::E { a } => put_two(ops, go(a, KIND_FINISH, 0, 0), Op::Done { task: a }),
        Event::S { a } => put_two(ops, go(a, KIND_ELSE, 0, 0), Op::Done { task: a }),
        Event::D { a, k } => put_two(ops, go(a, KIND_DELAY, k, 0), Op::Done { task: a }),
        Event::C { c, e, i } => put_two(ops, go(c, KIND_CALL_ELSE, e, i), Op::Done { task: c }),
        Event::T { c, e, i } => put_two(ops, go(c, KIND_EXPIRE, e, i), Op::Done { task: c }),
        Event::F { c, e, i } => put_two(ops, go(c, KIND_FAIL, e, i), Op::Done { task: c }),
        Event::X { a } => put_two(ops, go(a, KIND_COMPLETE, 0, 0), Op::Join { task: a }),
        Event::B { t, x } => put_two(ops, go(t, KIND_ABORT, x, 0), after_abort(t, x)),
        Event::Z => put_closing(ops, progress, numbers),
    }
}

// A permit.
fn go(task: u32, kind: u32, arg: u32, index: i32) -> Op
    ensures { result ≡ Go task kind arg index }
{
    Op::Go {
        task,
        kind,
        arg,
        index,
    }
}

// What follows the permit for an abort: who aborts itself says no more.
fn after_abort(t: u32, x: u32) -> Op
    ensures { result ≡ after_abort t x }
{
    if x == t {
        Op::Join { task: t }
    } else {
        Op::Done { task: t }
    }
}

// Appends two operations.
fn put_two(ops: &mut Vec<Op>, first: Op, second: Op) -> Result<(), Memory>
    ensures { OnOk result (ops.new.items ≡ ops.old.items ++ first ∷ second ∷ []) }
{
    ops.push(first)?;
    ops.push(second)?;
    Ok(())
}

// Appends three operations.
fn put_three(ops: &mut Vec<Op>, first: Op, second: Op, third: Op) -> Result<(), Memory>
    ensures { OnOk result (ops.new.items ≡ ops.old.items ++ first ∷ second ∷ third ∷ []) }
{
    ops.push(first)?;
    ops.push(second)?;
    ops.push(third)?;
    Ok(())
}

// Appends the permits to end with the program: to each task that is not closed, and then to the main program.
fn put_closing(ops: &mut Vec<Op>, progress: &Progress, numbers: &Numbers) -> Result<(), Memory>
    requires tasks { length progress.now.parties ≡ length numbers.now.tasks }
    ensures { OnOk result (ops.new.items ≡ ops.old.items ++ (map to_close (open_tasks progress.now) ++ to_close 0 ∷ [])) }
{
    let count = numbers.tasks.as_slice().len() as u32;
    for t in 1..count {
        put_close(ops, progress, t)?;
    }
    ops.push(go(0, KIND_END, 0, 0))?;
    Ok(())
}

// Appends the permit to end with the program to a task that is not closed.
fn put_close(ops: &mut Vec<Op>, progress: &Progress, t: u32) -> Result<(), Memory>
    ensures { OnOk result (ops.new.items ≡ ops.old.items ++ (if is_closed progress.now t then [] else to_close t ∷ [])) }
{
    if !progress.closed(t) {
        ops.push(go(t, KIND_END, 0, 0))?;
    }
    Ok(())
}
