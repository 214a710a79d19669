// The bodies of units.
#![tactic(auto, using(ada_tree::proofs::Rows::rows, tree_rewriting::proofs::walking::Rows::walked, crate::proofs::Handled::handled))]

ghost use Rattle.std.specs.Prelude.{◌≡◌, IfOk, OnOk, map};
ghost use Rattle.ada_tree.specs.PlainStmt.{plain_body, plain_handler, handlers_of, seen, body, no_stmt, no_handler};
ghost use Rattle.replay_model.specs.ReplayStmts.{with_handlers};
ghost use Rattle.collect_model.specs.CollectStmts.{main_body, task_body, telling_at_end};
ghost use Rattle.collect_statements.specs.Rules.{has_handlers};
ghost use Rattle.collect_statements.specs.Looked.{teller_of};

use crate::Reporter;
use crate::kinds::AT_END;
use crate::noting::own_note;
use crate::rewriting::{Collecting, Nothing};
use ada_stmt_copy::building::{block_of, body_of};
use ada_tree::{Body, Handler, Memory, Span, Stmt};
use replay_asking::making::{before, put_list, take_body};
use replay_asking::whatever;
use std::alloc::Global;
use tree_rewriting::making::{null_stmt, one_stmt, take_stmts};
use tree_rewriting::walking::rewrite_body;

/// The body of main becomes its body in a collecting text. After want of memory nothing is said of it.
pub fn collect_main(alloc: Global, reporter: Reporter, body: &mut Body) -> Result<(), Memory>
    ensures { OnOk result (plain_body body.new ≡ main_body (teller_of reporter.entry) (plain_body body.old)) }
{
    let collecting = Collecting { alloc, reporter };
    let mut track = Nothing;
    rewrite_body(alloc, body, &collecting, &mut track)
}

// Whether there are handlers.
fn has_handlers(handlers: &[Handler]) -> bool
    ensures { result ≡ has_handlers (handlers_of (map plain_handler handlers.now)) }
{
    !handlers.is_empty()
}

// The statements of a body, in a block with its handlers where it has some. They are taken from where they stand, and none is left.
fn with_handlers(alloc: Global, place: &mut Body, s: Span) -> Result<Vec<Stmt>, Memory>
    ensures taken { IfOk result (λ made. seen made.items ≡ with_handlers s (plain_body place.old)) }
    ensures left { plain_body place.new ≡ body no_stmt no_handler }
{
    if has_handlers(&place.handlers) {
        one_stmt(alloc, block_of(Ok(take_body(alloc, place)), s))
    } else {
        Ok(take_stmts(alloc, &mut place.stmts))
    }
}

/// A body whose statements are rewritten: an exception ends them and no more, and behind them the task tells that it is at its end.
pub fn tell_at_end(alloc: Global, x: &Reporter, place: &mut Body, s: Span) -> Result<(), Memory>
    ensures { OnOk result (plain_body place.new ≡ telling_at_end (teller_of x.now) s (plain_body place.old)) }
{
    let rows = with_handlers(alloc, place, s);
    let nothing = one_stmt(alloc, Ok(null_stmt(s)));
    let block = block_of(body_of(rows, whatever(alloc, nothing, s)), s);
    let note = one_stmt(alloc, own_note(alloc, x, AT_END, 0, s));
    put_list(&mut place.stmts, before(alloc, block, note))
}

/// The body of a task becomes its body in a collecting text. After want of memory nothing is said of it.
pub fn collect_task(
    alloc: Global,
    reporter: Reporter,
    body: &mut Body,
    s: Span,
) -> Result<(), Memory>
    ensures { OnOk result (plain_body body.new ≡ task_body (teller_of reporter.entry) s (plain_body body.old)) }
{
    let collecting = Collecting { alloc, reporter };
    let mut track = Nothing;
    rewrite_body(alloc, body, &collecting, &mut track)?;
    tell_at_end(alloc, &collecting.reporter, body, s)
}
