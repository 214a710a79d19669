// What the recorder does with a note, by its kind.

ghost use Rattle.std.specs.Prelude.{◌≡◌, ◌∷◌, ◌++◌, [], None, IfOk, OnOk, codes, map};
ghost use Rattle.ada_tree.specs.PlainStmt.{case_arm, case_arms_of, plain_case_arm, seen};
ghost use Rattle.ada_stmt_copy.specs.expressions.Parts.{OkWith};
ghost use Rattle.collect_model.specs.Noting.{number};
ghost use Rattle.collect_model.specs.Recording.{on_before_call, on_begun, on_other_part, on_failed, on_end, branches};
ghost use Rattle.collect_xform.specs.recorder.Branches.{arm_at, first_arms, part_arms, last_arms};

use crate::recorder::flags::{answered, flag_of, flag_set};
use crate::recorder::lines::{call_line, delay_line, task_line};
use ada_tree::{CaseArm, Memory, Span, Stmt, UnaryOp};
use collect_model::AddedNames;
use collect_statements::kinds::{
    AT_END, AT_FINISH, BEFORE_CALL, HAS_BEGUN, HAS_CALL_ELSE, HAS_DELAY, HAS_ELSE, HAS_EXPIRED,
    HAS_FAILED,
};
use replay_asking::making::{before, joined};
use std::alloc::Global;
use tree_rewriting::making::{
    if_one, integer_expr, keep_case_arms, one_stmt, push_case_arm, some_stmts, unary_of, value_arm,
};

// A task is before a call: it has not been accepted.
fn on_before_call(alloc: Global, n: &AddedNames, s: Span) -> Result<Vec<Stmt>, Memory>
    ensures { IfOk result (λ made. seen made.items ≡ on_before_call n.now s) }
{
    one_stmt(alloc, flag_set(n.met, n.subject, false, s))
}

// A call has been accepted.
fn on_begun(alloc: Global, n: &AddedNames, s: Span) -> Result<Vec<Stmt>, Memory>
    ensures { IfOk result (λ made. seen made.items ≡ on_begun n.now s) }
{
    let line = call_line(alloc, n, "R", s);
    before(alloc, flag_set(n.met, n.subject, true, s), line)
}

/// A task has taken the other part of its call: the line of this letter, or where the owner of the entry is at its end that of a failed call, and the answer.
pub fn on_other_part(
    alloc: Global,
    n: &AddedNames,
    letter: &str,
    s: Span,
) -> Result<Vec<Stmt>, Memory>
    ensures { IfOk result (λ made. seen made.items ≡ on_other_part n.now s letter.now) }
{
    let answer = one_stmt(alloc, answered(n, true, s));
    let late = joined(call_line(alloc, n, "F", s), answer);
    let test = flag_of(alloc, n.gone, n.owner, s);
    let other = some_stmts(call_line(alloc, n, letter, s));
    one_stmt(alloc, if_one(alloc, test, late, other, s))
}

// TASKING_ERROR has been raised at a call: it has failed, unless it had been accepted.
fn on_failed(alloc: Global, n: &AddedNames, s: Span) -> Result<Vec<Stmt>, Memory>
    ensures { IfOk result (λ made. seen made.items ≡ on_failed n.now s) }
{
    let met = flag_of(alloc, n.met, n.subject, s);
    let test = unary_of(alloc, UnaryOp::Not, met, s);
    let line = call_line(alloc, n, "F", s);
    one_stmt(alloc, if_one(alloc, test, line, Ok(None), s))
}

/// A task is at its end.
pub fn on_end(alloc: Global, n: &AddedNames, s: Span) -> Result<Vec<Stmt>, Memory>
    ensures { IfOk result (λ made. seen made.items ≡ on_end n.now s) }
{
    let line = task_line(alloc, n, "X", s);
    before(alloc, flag_set(n.gone, n.subject, true, s), line)
}

// ---- the branches

/// The branch of a kind of notes goes behind others.
pub fn put_branch(
    alloc: Global,
    kind: u32,
    stmts: Result<Vec<Stmt>, Memory>,
    s: Span,
    out: &mut Vec<CaseArm>,
) -> Result<(), Memory>
    ensures { OnOk result (OkWith stmts (λ k. map plain_case_arm out.new.items ≡ map plain_case_arm out.old.items ++ arm_at s kind (seen k.items) ∷ [])) }
{
    push_case_arm(out, value_arm(alloc, Ok(integer_expr(kind, s)), stmts))
}

// The branches of rendezvous: before a call, and of the begin and the end of an accept body.
fn put_first(alloc: Global, n: &AddedNames, s: Span, out: &mut Vec<CaseArm>) -> Result<(), Memory>
    ensures { OnOk result (map plain_case_arm out.new.items ≡ map plain_case_arm out.old.items ++ first_arms n.now s) }
{
    put_branch(alloc, BEFORE_CALL, on_before_call(alloc, n, s), s, out)?;
    put_branch(alloc, HAS_BEGUN, on_begun(alloc, n, s), s, out)?;
    put_branch(alloc, AT_FINISH, task_line(alloc, n, "E", s), s, out)
}

/// The branches of other parts that were taken, of waits and of calls.
pub fn put_parts(
    alloc: Global,
    n: &AddedNames,
    s: Span,
    out: &mut Vec<CaseArm>,
) -> Result<(), Memory>
    ensures { OnOk result (map plain_case_arm out.new.items ≡ map plain_case_arm out.old.items ++ part_arms n.now s) }
{
    put_branch(alloc, HAS_ELSE, task_line(alloc, n, "S", s), s, out)?;
    put_branch(alloc, HAS_DELAY, delay_line(alloc, n, "D", s), s, out)?;
    put_branch(
        alloc,
        HAS_CALL_ELSE,
        on_other_part(alloc, n, "C", s),
        s,
        out,
    )?;
    put_branch(alloc, HAS_EXPIRED, on_other_part(alloc, n, "T", s), s, out)
}

// The branches of calls that failed, and of the ends of tasks.
fn put_last(alloc: Global, n: &AddedNames, s: Span, out: &mut Vec<CaseArm>) -> Result<(), Memory>
    ensures { OnOk result (map plain_case_arm out.new.items ≡ map plain_case_arm out.old.items ++ last_arms n.now s) }
{
    put_branch(alloc, HAS_FAILED, on_failed(alloc, n, s), s, out)?;
    put_branch(alloc, AT_END, on_end(alloc, n, s), s, out)
}

// All branches go behind others, by the kinds of notes.
fn put_branches(
    alloc: Global,
    n: &AddedNames,
    s: Span,
    out: &mut Vec<CaseArm>,
) -> Result<(), Memory>
    ensures { OnOk result (map plain_case_arm out.new.items ≡ map plain_case_arm out.old.items ++ first_arms n.now s ++ part_arms n.now s ++ last_arms n.now s) }
{
    put_first(alloc, n, s, out)?;
    put_parts(alloc, n, s, out)?;
    put_last(alloc, n, s, out)
}

/// The branches, by the kinds of notes.
pub(crate) fn branches(alloc: Global, n: &AddedNames, s: Span) -> Result<Vec<CaseArm>, Memory>
    ensures { IfOk result (λ made. case_arms_of (map plain_case_arm made.items) ≡ branches n.now s) }
{
    let mut arms = Vec::new(alloc);
    let done = put_branches(alloc, n, s, &mut arms);
    keep_case_arms(arms, done)
}
