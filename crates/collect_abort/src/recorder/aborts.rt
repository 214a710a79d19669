// Notes of aborts: the recorder makes them.

ghost use Rattle.std.specs.Prelude.{◌≡◌, ◌∷◌, ◌++◌, [], IfOk, OnOk, drop, false, map};
ghost use Rattle.ada_tree.specs.PlainExpr.{RGiven};
ghost use Rattle.ada_tree.specs.PlainStmt.{LFor, case_arms_of, plain_case_arm, plain_scheme, plain_stmt, seen};
ghost use Rattle.normal_model.specs.Ranges.{word_at};
ghost use Rattle.replay_model.specs.ReplayTree.{last_task};
ghost use Rattle.collect_model.specs.Noting.{number};
ghost use Rattle.collect_model.specs.aborts.Recording.{aborts_from, callers_lost, abort_made, on_abort};
ghost use Rattle.collect_abort.specs.Looked.{told_of};
ghost use Rattle.collect_abort.specs.Branches.{abort_arm, abort_arms};

use crate::recorder::meetings::{LOST, is_meeting, stands_now};
use crate::teller::AbortReporter;
use ada_stmt_copy::building::{case_others_of, loop_of};
use ada_tree::{Bounds, CaseArm, Drange, Memory, Scheme, Span, Stmt};
use collect_xform::recorder::{delay_line, flag_set};
use normal_lookups::pieces::following;
use normal_parts::last_task;
use replay_asking::making::{before, joined};
use replay_asking::word;
use std::alloc::Global;
use syn_event::TaskInfo;
use tree_rewriting::making::{
    abort_one, if_one, integer_expr, keep_case_arms, name_expr, null_stmt, one_stmt, push_case_arm,
    value_arm,
};

// All tasks, as the range of a loop.
fn all_tasks(x: &AbortReporter, s: Span) -> Scheme
    ensures { plain_scheme result ≡ LFor (word_at s (told_of x.now).each) false (RGiven (record { first = number s 0; last = number s (last_task (told_of x.now).teller.numbers) })) }
{
    let range = Drange::Given(Bounds {
        first: integer_expr(0, s),
        last: integer_expr(last_task(x.reporter.numbers.numbers()), s),
    });
    Scheme::For {
        name: word(x.each, s),
        reverse: false,
        range,
    }
}

// The callers that the aborted task has accepted, of whose rendezvous no end is written, have lost it.
fn callers_lost(alloc: Global, x: &AbortReporter, s: Span) -> Result<Stmt, Memory>
    ensures { IfOk result (λ made. plain_stmt made ≡ callers_lost (told_of x.now) s) }
{
    let n = &x.reporter.tables.added;
    let test = is_meeting(alloc, x, x.each, n.argument, s);
    let lost = one_stmt(alloc, stands_now(n, x.each, LOST, s));
    let each = one_stmt(alloc, if_one(alloc, test, lost, Ok(None), s));
    loop_of(None, Ok(Some(all_tasks(x, s))), each, s)
}

// The branch that aborts the task of a number.
fn put_abort(
    alloc: Global,
    info: &TaskInfo,
    task: u32,
    s: Span,
    out: &mut Vec<CaseArm>,
) -> Result<(), Memory>
    ensures { OnOk result (map plain_case_arm out.new.items ≡ map plain_case_arm out.old.items ++ abort_arm s task info.now ∷ []) }
{
    let stmts = one_stmt(alloc, abort_one(alloc, word(info.name, s), s));
    push_case_arm(out, value_arm(alloc, Ok(integer_expr(task, s)), stmts))
}

// The branches that abort tasks, which are numbered from 1 on, go behind others.
fn put_aborts(
    alloc: Global,
    infos: &[TaskInfo],
    s: Span,
    out: &mut Vec<CaseArm>,
) -> Result<(), Memory>
    ensures { OnOk result (map plain_case_arm out.new.items ≡ map plain_case_arm out.old.items ++ abort_arms s 1 infos.now) }
{
    let mut task = 1u32;
    for info in infos {
        put_abort(alloc, info, task, s, out)?;
        task = following(task)?;
    }
    Ok(())
}

// The tasks beside main.
fn behind_main(tasks: &[TaskInfo]) -> &[TaskInfo]
    ensures { result.now ≡ drop 1 tasks.now }
{
    match tasks {
        [] => &[],
        [_, rest @ ..] => rest,
    }
}

// The branches that abort the tasks beside main.
fn abort_branches(alloc: Global, x: &AbortReporter, s: Span) -> Result<Vec<CaseArm>, Memory>
    ensures { IfOk result (λ made. case_arms_of (map plain_case_arm made.items) ≡ aborts_from s 1 (drop 1 (told_of x.now).teller.numbers.tasks)) }
{
    let mut arms = Vec::new(alloc);
    let done = put_aborts(
        alloc,
        behind_main(&x.reporter.numbers.numbers().tasks),
        s,
        &mut arms,
    );
    keep_case_arms(arms, done)
}

// The abort itself.
fn abort_made(alloc: Global, x: &AbortReporter, s: Span) -> Result<Stmt, Memory>
    ensures { IfOk result (λ made. plain_stmt made ≡ abort_made (told_of x.now) s) }
{
    let victim = Ok(name_expr(x.reporter.tables.added.argument, s));
    let nothing = one_stmt(alloc, Ok(null_stmt(s)));
    case_others_of(victim, abort_branches(alloc, x, s), nothing, s)
}

/// A task aborts another, or itself.
pub(crate) fn on_abort(alloc: Global, x: &AbortReporter, s: Span) -> Result<Vec<Stmt>, Memory>
    ensures { IfOk result (λ made. seen made.items ≡ on_abort (told_of x.now) s) }
{
    let n = &x.reporter.tables.added;
    let abort = one_stmt(alloc, abort_made(alloc, x, s));
    let lost = before(alloc, callers_lost(alloc, x, s), abort);
    let gone = before(alloc, flag_set(n.gone, n.argument, true, s), lost);
    joined(delay_line(alloc, n, "B", s), gone)
}
