// How the frames around are left.

ghost use Rattle.std.specs.Prelude.{◌≡◌, ◌≤◌, ◌<◌, ◌+◌, reverse, slice_get, IfOk, IsOk, OnErr};
ghost use Rattle.std.specs.Vec.{vec_len, vec_capacity};
ghost use Rattle.ada_tree.specs.PlainStmt.{seen};
ghost use Rattle.task_model.specs.Frames.{handled_among, callers_among};
ghost use Rattle.task_state.specs.frames.Seen.{stack_of, parts_of, on_parts, all_parts, IsAtStatement, IsGrounded};
ghost use Rattle.task_state.specs.frames.Stack.{passed};
ghost use Rattle.task_state.specs.frames.Moves.{Settles, IsRaisedTo, IsLeftWith, IsExitedTo};

use crate::frames::frame::Frame;
use ada_tree::{Memory, Word};
use ada_value::Raised;

// The frame in which an exception or an exit has come to its place, and how many variables have gone.
#[derive(Clone, Copy)]
pub(crate) struct Landing<'p> {
    pub(crate) frame: Frame<'p>,
    pub(crate) gone: usize,
}

// The innermost frame once those that are over are left.
pub(crate) fn settle<'p>(top: Frame<'p>, outer: &mut Vec<Frame<'p>>) -> Frame<'p>
    requires { IsGrounded top.place (reverse outer.old.items) }
    ensures settles { Settles (stack_of top.entry (reverse outer.old.items)) (stack_of result (reverse outer.new.items)) }
    ensures settled { IsAtStatement result.rest.now result.place }
    ensures grounded { IsGrounded result.place (reverse outer.new.items) }
{
    if !top.is_over() {
        return top;
    }
    match outer.pop() {
        Some(below) => settle(below, outer),
        None => top,
    }
}

// Where an exception comes to that is raised in a frame: it is left until one catches the exception.
pub(crate) fn raise<'p>(raised: Raised, frame: Frame<'p>, outer: &mut Vec<Frame<'p>>) -> Landing<'p>
    requires { IsGrounded frame.place (reverse outer.old.items) }
    ensures lands { IsRaisedTo raised result.gone (stack_of frame.entry (reverse outer.old.items)) (stack_of result.frame (reverse outer.new.items)) }
    ensures grounded { IsGrounded result.frame.place (reverse outer.new.items) }
    ensures few { result.gone + vec_len outer.new ≤ vec_len outer.old }
{
    match frame.caught(raised) {
        Some(landed) => Landing {
            frame: landed,
            gone: 0,
        },
        None => match outer.pop() {
            Some(below) => {
                let beyond = raise(raised, below, outer);
                Landing {
                    frame: beyond.frame,
                    gone: frame.parameters() + beyond.gone,
                }
            }
            None => Landing { frame, gone: 0 },
        },
    }
}

// Where an exit comes to that is made in a frame: behind the loop that it leaves.
pub(crate) fn exit<'p>(
    name: Option<Word>,
    frame: Frame<'p>,
    outer: &mut Vec<Frame<'p>>,
) -> Landing<'p>
    requires { IsGrounded frame.place (reverse outer.old.items) }
    ensures lands { IsExitedTo name result.gone (stack_of frame.entry (reverse outer.old.items)) (stack_of result.frame (reverse outer.new.items)) }
    ensures grounded { IsGrounded result.frame.place (reverse outer.new.items) }
    ensures few { result.gone + vec_len outer.new ≤ vec_len outer.old }
{
    if frame.holds_exits() {
        return Landing {
            frame: frame.at_end(),
            gone: 0,
        };
    }
    match outer.pop() {
        Some(below) => {
            let beyond = if frame.is_exited(name) {
                Landing {
                    frame: below,
                    gone: 0,
                }
            } else {
                exit(name, below, outer)
            };
            Landing {
                frame: beyond.frame,
                gone: frame.parameters() + beyond.gone,
            }
        }
        None => Landing { frame, gone: 0 },
    }
}

// Where an exception comes to that may be pending.
pub(crate) fn raise_if<'p>(
    pending: Option<Raised>,
    frame: Frame<'p>,
    outer: &mut Vec<Frame<'p>>,
) -> Landing<'p>
    requires { IsGrounded frame.place (reverse outer.old.items) }
    ensures lands { IsLeftWith pending result.gone (stack_of frame.entry (reverse outer.old.items)) (stack_of result.frame (reverse outer.new.items)) }
    ensures grounded { IsGrounded result.frame.place (reverse outer.new.items) }
{
    match pending {
        Some(raised) => raise(raised, frame, outer),
        None => Landing { frame, gone: 0 },
    }
}

// A new frame inside of the innermost one, which goes on behind its next statement. Answers the innermost frame that is not over.
pub(crate) fn push<'p>(
    frame: Frame<'p>,
    top: Frame<'p>,
    outer: &mut Vec<Frame<'p>>,
) -> Result<Frame<'p>, Memory>
    requires settled { IsAtStatement top.rest.now top.place }
    requires grounded { IsGrounded top.place (reverse outer.old.items) }
    ensures ok { IfOk result (λ f. Settles (on_parts (seen frame.entry.rest.now) frame.entry.place (all_parts (passed (stack_of top.entry (reverse outer.old.items))))) (stack_of f (reverse outer.new.items))) }
    ensures settled { IfOk result (λ f. IsAtStatement f.rest.now f.place) }
    ensures grounded { IfOk result (λ f. IsGrounded f.place (reverse outer.new.items)) }
    ensures reserved { vec_len outer.old < vec_capacity outer.old → IsOk result }
    ensures same_frames { OnErr result (outer.new.items ≡ outer.old.items) }
    ensures same_length { OnErr result (vec_len outer.new ≡ vec_len outer.old) }
    ensures same_room { OnErr result (vec_capacity outer.new ≡ vec_capacity outer.old) }
{
    outer.reserve(1)?;
    outer.push_reserved(top.passed());
    Ok(settle(frame, outer))
}

// The exception of the innermost handler among these frames, the outermost first.
pub(crate) fn handled_among(frames: &[Frame]) -> Option<Raised>
    ensures { result ≡ handled_among (parts_of (reverse frames.now)) }
{
    match frames {
        [outer @ .., last] => match last.handled() {
            Some(raised) => Some(raised),
            None => handled_among(outer),
        },
        [] => None,
    }
}

// The caller of the innermost opened accept body among these frames, the outermost first.
pub(crate) fn caller_among(frames: &[Frame]) -> Option<u32>
    ensures { result ≡ slice_get (callers_among (parts_of (reverse frames.now))) 0 }
{
    match frames {
        [outer @ .., last] => match last.caller() {
            Some(caller) => Some(caller),
            None => caller_among(outer),
        },
        [] => None,
    }
}
