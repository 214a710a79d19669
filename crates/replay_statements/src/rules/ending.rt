// The body of a unit.

ghost use Rattle.std.specs.Prelude.{◌≡◌, IfOk, OnOk, map};
ghost use Rattle.ada_tree.specs.PlainStmt.{plain_body, plain_handler, handlers_of, seen, body, no_stmt, no_handler};
ghost use Rattle.replay_model.specs.Serving.{whatever};
ghost use Rattle.replay_model.specs.ReplayStmts.{with_handlers, last_kind};
ghost use Rattle.replay_statements.specs.rules.Replayed.{has_handlers, asking_at_end, body_image};
ghost use Rattle.replay_asking.specs.Looked.{voice_of};

use crate::rules::replaying::{Nothing, Replaying};
use ada_stmt_copy::building::{block_of, body_of};
use ada_tree::{Body, Handler, Memory, Span, Stmt};
use control_script::{KIND_COMPLETE, KIND_END};
use replay_asking::making::{before, put_list, take_body};
use replay_asking::{Speaker, ask_only, whatever};
use std::alloc::Global;
use tree_rewriting::making::{null_stmt, one_stmt, take_stmts};
use tree_rewriting::walking::rewrite_body;

// Whether there are handlers.
fn has_handlers(handlers: &[Handler]) -> bool
    ensures { result ≡ has_handlers (handlers_of (map plain_handler handlers.now)) }
{
    !handlers.is_empty()
}

// The statements of a body, in a block with its handlers where it has some. They are taken from where they stand, and none is left.
fn with_handlers(alloc: Global, place: &mut Body, s: Span) -> Result<Vec<Stmt>, Memory>
    ensures taken { IfOk result (λ made. seen made.items ≡ with_handlers s (plain_body place.old)) }
    ensures left { plain_body place.new ≡ body no_stmt no_handler }
{
    if has_handlers(&place.handlers) {
        one_stmt(alloc, block_of(Ok(take_body(alloc, place)), s))
    } else {
        Ok(take_stmts(alloc, &mut place.stmts))
    }
}

// The kind of the event with which a task ends.
fn last_kind(task: u32) -> u32
    ensures { result ≡ last_kind task }
{
    if task == 0 { KIND_END } else { KIND_COMPLETE }
}

// A body whose statements are rewritten: an exception ends them and no more, and behind them the task asks for its end.
fn ask_at_end(alloc: Global, x: &Speaker, place: &mut Body, s: Span) -> Result<(), Memory>
    ensures { OnOk result (plain_body place.new ≡ asking_at_end (voice_of x.now) s (plain_body place.old)) }
{
    let rows = with_handlers(alloc, place, s);
    let nothing = one_stmt(alloc, Ok(null_stmt(s)));
    let block = block_of(body_of(rows, whatever(alloc, nothing, s)), s);
    let rows = before(alloc, block, ask_only(alloc, x, last_kind(x.task), s));
    put_list(&mut place.stmts, rows)
}

/// The body of a unit becomes its body in a replay text. After want of memory nothing is said of it.
pub fn replay_body(alloc: Global, speaker: Speaker, body: &mut Body, s: Span) -> Result<(), Memory>
    ensures { OnOk result (plain_body body.new ≡ body_image (voice_of speaker.entry) s (plain_body body.old)) }
{
    let replaying = Replaying { alloc, speaker };
    let mut track = Nothing;
    rewrite_body(alloc, body, &replaying, &mut track)?;
    ask_at_end(alloc, &replaying.speaker, body, s)
}
