// Abort statements.

ghost use Rattle.std.specs.Prelude.{◌≡◌, IfOk, map, option_map};
ghost use Rattle.ada_tree.specs.PlainStmt.{plain_callee, plain_stmt, seen, SAbort};
ghost use Rattle.replay_statements.specs.rules.Replayed.{after_abort, abort_image, only_callee, abort_by};
ghost use Rattle.replay_asking.specs.Looked.{voice_of};

use ada_stmt_copy::building::{abort_of, arm_of};
use ada_stmt_copy::expressions::copy_callees;
use ada_tree::{Callee, Memory, Span, Stmt};
use control_script::KIND_ABORT;
use replay_asking::making::before;
use replay_asking::{Speaker, ask_which, done, is_for, task_called};
use std::alloc::Global;
use tree_rewriting::making::{one_arm, one_stmt};

// What follows the abort of a task.
fn after_abort(alloc: Global, x: &Speaker, task: u32, s: Span) -> Result<Vec<Stmt>, Memory>
    ensures { IfOk result (λ made. seen made.items ≡ after_abort (voice_of x.now) s task) }
{
    if task == x.task {
        Ok(Vec::new(alloc))
    } else {
        one_stmt(alloc, done(alloc, x, s))
    }
}

// The abort of these tasks.
fn abort_stmt(alloc: Global, names: &[Callee], s: Span) -> Result<Stmt, Memory>
    ensures { IfOk result (λ made. plain_stmt made ≡ SAbort (map plain_callee names.now) s) }
{
    abort_of(copy_callees(alloc, names), s)
}

// The one task that is named, where there is one alone.
fn only_callee(names: &[Callee]) -> Option<&Callee>
    ensures { option_map (λ c. plain_callee c.now) result ≡ only_callee (map plain_callee names.now) }
{
    if names.len() == 1 { names.get(0) } else { None }
}

// What stands in the place of the abort of one task.
fn abort_image(
    alloc: Global,
    x: &Speaker,
    names: &[Callee],
    callee: &Callee,
    s: Span,
) -> Result<Vec<Stmt>, Memory>
    ensures { IfOk result (λ made. seen made.items ≡ abort_image (voice_of x.now) s (map plain_callee names.now) (plain_callee callee.now)) }
{
    let task = task_called(x.numbers, callee.name.name);
    let aborted = before(
        alloc,
        abort_stmt(alloc, names, s),
        after_abort(alloc, x, task, s),
    );
    let part = arm_of(is_for(alloc, x, KIND_ABORT, task, s), aborted);
    ask_which(alloc, x, one_arm(alloc, part), s)
}

/// What stands in the place of an abort statement.
pub(crate) fn abort_by(
    alloc: Global,
    x: &Speaker,
    names: &[Callee],
    s: Span,
) -> Result<Vec<Stmt>, Memory>
    ensures { IfOk result (λ made. seen made.items ≡ abort_by (voice_of x.now) s (map plain_callee names.now) (only_callee (map plain_callee names.now))) }
{
    match only_callee(names) {
        Some(callee) => abort_image(alloc, x, names, callee, s),
        None => one_stmt(alloc, abort_stmt(alloc, names, s)),
    }
}
