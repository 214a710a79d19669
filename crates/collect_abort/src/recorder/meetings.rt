// How the last call of each task stands, and what is done with notes of rendezvous.

ghost use Rattle.std.specs.Prelude.{◌≡◌, ◌∷◌, [], IfOk, codes, map, true};
ghost use Rattle.ada_tree.specs.declared.expressions.BinaryOp.TheVariants.{And, Equal};
ghost use Rattle.ada_tree.specs.PlainExpr.{plain_expr, EBinary, EName};
ghost use Rattle.ada_tree.specs.PlainStmt.{absent, arm, arm_then, arms_of, no_arm, PValue, SIf, SPut, plain_arm, plain_stmt, seen};
ghost use Rattle.ada_stmt_copy.specs.expressions.Parts.{OkWith};
ghost use Rattle.task_model.specs.Frames.{in_front};
ghost use Rattle.normal_model.specs.Making.{one};
ghost use Rattle.collect_model.specs.Noting.{has_failed, number};
ghost use Rattle.collect_model.specs.Lines.{call_line};
ghost use Rattle.collect_model.specs.Recording.{answered};
ghost use Rattle.collect_model.specs.aborts.Recording.{entry_for, entry_set, stands, stands_now, is_meeting, on_before_call, on_begun, on_finish, acceptor_line, on_back};
ghost use Rattle.collect_abort.specs.Looked.{told_of};

use crate::teller::AbortReporter;
use ada_stmt_copy::building::{arm_of, if_of, put_of};
use ada_tree::{Arm, BinaryOp, Expr, Memory, NameId, Part, Span, Stmt};
use collect_model::AddedNames;
use collect_statements::kinds::HAS_FAILED;
use collect_xform::recorder::{
    answered, call_line, flag_of, line_end, one_part, put_words, task_line,
};
use replay_asking::making::{arms_before, before, joined};
use replay_asking::word;
use std::alloc::Global;
use tree_rewriting::making::{
    binary_of, component_assignment, if_one, integer_expr, name_expr, one_arm, one_stmt, some_stmts,
};

/// A task is at no call, or at one that has not been accepted.
const NO_MEETING: u32 = 0;

/// Its call has been accepted.
const MEETING: u32 = 1;

/// The line of the end of its rendezvous is written.
const MET_BEFORE: u32 = 2;

/// Its acceptor has been aborted before that line was written.
pub(crate) const LOST: u32 = 3;

// ---- the recorder's tables

// The entry of a table for the task whose number is in a variable becomes this.
fn entry_set(
    table: NameId,
    task: NameId,
    value: Result<Expr, Memory>,
    s: Span,
) -> Result<Stmt, Memory>
    ensures { IfOk result (λ made. OkWith value (λ e. plain_stmt made ≡ entry_set s table task (plain_expr e))) }
{
    component_assignment(word(table, s), Ok(name_expr(task, s)), value, s)
}

/// The call of the task whose number is in a variable stands so.
pub(crate) fn stands_now(n: &AddedNames, task: NameId, state: u32, s: Span) -> Result<Stmt, Memory>
    ensures { IfOk result (λ made. plain_stmt made ≡ stands_now n.now s task state) }
{
    entry_set(n.met, task, Ok(integer_expr(state, s)), s)
}

// The test whether it stands so.
fn stands(alloc: Global, n: &AddedNames, task: NameId, state: u32, s: Span) -> Result<Expr, Memory>
    ensures { IfOk result (λ made. plain_expr made ≡ stands n.now s task state) }
{
    let entry = flag_of(alloc, n.met, task, s);
    binary_of(alloc, BinaryOp::Equal, entry, Ok(integer_expr(state, s)), s)
}

// The test whether the last call of a task was accepted by an acceptor, both by variables.
fn accepted_by(
    alloc: Global,
    x: &AbortReporter,
    task: NameId,
    acceptor: NameId,
    s: Span,
) -> Result<Expr, Memory>
    ensures { IfOk result (λ made. plain_expr made ≡ EBinary Equal (entry_for s (told_of x.now).acceptors task) (EName acceptor s) s) }
{
    let own = flag_of(alloc, x.acceptors, task, s);
    binary_of(alloc, BinaryOp::Equal, own, Ok(name_expr(acceptor, s)), s)
}

/// The test whether a task is in a rendezvous with an acceptor, both by variables.
pub(crate) fn is_meeting(
    alloc: Global,
    x: &AbortReporter,
    task: NameId,
    acceptor: NameId,
    s: Span,
) -> Result<Expr, Memory>
    ensures { IfOk result (λ made. plain_expr made ≡ is_meeting (told_of x.now) s task acceptor) }
{
    let meets = stands(alloc, &x.reporter.tables.added, task, MEETING, s);
    let accepted = accepted_by(alloc, x, task, acceptor, s);
    binary_of(alloc, BinaryOp::And, meets, accepted, s)
}

// ---- notes of rendezvous

/// A task is before a call.
pub(crate) fn on_before_call(alloc: Global, n: &AddedNames, s: Span) -> Result<Vec<Stmt>, Memory>
    ensures { IfOk result (λ made. seen made.items ≡ on_before_call n.now s) }
{
    one_stmt(alloc, stands_now(n, n.subject, NO_MEETING, s))
}

/// A call is to be accepted: it is refused where the caller has been aborted, else it has been accepted.
pub(crate) fn on_begun(alloc: Global, x: &AbortReporter, s: Span) -> Result<Vec<Stmt>, Memory>
    ensures { IfOk result (λ made. seen made.items ≡ on_begun (told_of x.now) s) }
{
    let n = &x.reporter.tables.added;
    let test = flag_of(alloc, n.gone, n.subject, s);
    let refusing = one_stmt(alloc, answered(n, true, s));
    let acceptor = entry_set(x.acceptors, n.subject, Ok(name_expr(n.owner, s)), s);
    let line = before(alloc, acceptor, call_line(alloc, n, "R", s));
    let begun = before(alloc, stands_now(n, n.subject, MEETING, s), line);
    one_stmt(alloc, if_one(alloc, test, refusing, some_stmts(begun), s))
}

/// A task is behind a rendezvous: its end, unless the line is written.
pub(crate) fn on_finish(alloc: Global, x: &AbortReporter, s: Span) -> Result<Vec<Stmt>, Memory>
    ensures { IfOk result (λ made. seen made.items ≡ on_finish (told_of x.now) s) }
{
    let n = &x.reporter.tables.added;
    let test = is_meeting(alloc, x, n.argument, n.subject, s);
    let met = one_stmt(alloc, stands_now(n, n.argument, MET_BEFORE, s));
    let line = joined(task_line(alloc, n, "E", s), met);
    one_stmt(alloc, if_one(alloc, test, line, Ok(None), s))
}

// ---- a call that came back

// `PUT(DED_ACC(DED_NS));`
fn put_acceptor(alloc: Global, x: &AbortReporter, s: Span) -> Result<Stmt, Memory>
    ensures { IfOk result (λ made. plain_stmt made ≡ SPut (PValue (entry_for s (told_of x.now).acceptors (told_of x.now).teller.added.subject) ∷ []) s) }
{
    let n = &x.reporter.tables.added;
    match flag_of(alloc, x.acceptors, n.subject, s) {
        Ok(entry) => put_of(one_part(alloc, Ok(Part::Value(entry))), s),
        Err(e) => Err(e),
    }
}

// The line of the end of the rendezvous in which the subject is the caller.
fn acceptor_line(alloc: Global, x: &AbortReporter, s: Span) -> Result<Vec<Stmt>, Memory>
    ensures { IfOk result (λ made. seen made.items ≡ acceptor_line (told_of x.now) s) }
{
    let end = one_stmt(alloc, Ok(line_end(s)));
    let number = before(alloc, put_acceptor(alloc, x, s), end);
    let blank = before(alloc, put_words(alloc, " ", s), number);
    before(alloc, put_words(alloc, "E", s), blank)
}

// It had been accepted, and the line of its end is not written.
fn met_arm(alloc: Global, x: &AbortReporter, s: Span) -> Result<Arm, Memory>
    ensures { IfOk result (λ made. plain_arm made ≡ arm (stands (told_of x.now).teller.added s (told_of x.now).teller.added.subject 1) (in_front (acceptor_line (told_of x.now) s) (one (stands_now (told_of x.now).teller.added s (told_of x.now).teller.added.subject 2)))) }
{
    let n = &x.reporter.tables.added;
    let met = one_stmt(alloc, stands_now(n, n.subject, MET_BEFORE, s));
    arm_of(
        stands(alloc, n, n.subject, MEETING, s),
        joined(acceptor_line(alloc, x, s), met),
    )
}

// Its acceptor has been aborted before that: the task is told so.
fn lost_arm(alloc: Global, n: &AddedNames, s: Span) -> Result<Arm, Memory>
    ensures { IfOk result (λ made. plain_arm made ≡ arm (stands n.now s n.now.subject 3) (one (answered n.now s true))) }
{
    arm_of(
        stands(alloc, n, n.subject, LOST, s),
        one_stmt(alloc, answered(n, true, s)),
    )
}

// The note is of a call at which an exception was raised.
fn is_failed(alloc: Global, n: &AddedNames, s: Span) -> Result<Expr, Memory>
    ensures { IfOk result (λ made. plain_expr made ≡ EBinary Equal (EName n.now.kind s) (number s has_failed) s) }
{
    binary_of(
        alloc,
        BinaryOp::Equal,
        Ok(name_expr(n.kind, s)),
        Ok(integer_expr(HAS_FAILED, s)),
        s,
    )
}

// The call had not been accepted, and an exception was raised there.
fn has_failed(alloc: Global, n: &AddedNames, s: Span) -> Result<Expr, Memory>
    ensures { IfOk result (λ made. plain_expr made ≡ EBinary And (stands n.now s n.now.subject 0) (EBinary Equal (EName n.now.kind s) (number s has_failed) s) s) }
{
    let none = stands(alloc, n, n.subject, NO_MEETING, s);
    binary_of(alloc, BinaryOp::And, none, is_failed(alloc, n, s), s)
}

// The line of a call that has failed, and the answer.
fn failing(alloc: Global, n: &AddedNames, s: Span) -> Result<Vec<Stmt>, Memory>
    ensures { IfOk result (λ made. seen made.items ≡ in_front (call_line n.now s (codes "F")) (one (answered n.now s true))) }
{
    let answer = one_stmt(alloc, answered(n, true, s));
    joined(call_line(alloc, n, "F", s), answer)
}

// That branch.
fn failed_arm(alloc: Global, n: &AddedNames, s: Span) -> Result<Arm, Memory>
    ensures { IfOk result (λ made. plain_arm made ≡ arm (EBinary And (stands n.now s n.now.subject 0) (EBinary Equal (EName n.now.kind s) (number s has_failed) s) s) (in_front (call_line n.now s (codes "F")) (one (answered n.now s true)))) }
{
    arm_of(has_failed(alloc, n, s), failing(alloc, n, s))
}

// The branches of a call whose rendezvous has no line of its end to come.
fn other_arms(alloc: Global, n: &AddedNames, s: Span) -> Result<Vec<Arm>, Memory>
    ensures { IfOk result (λ made. arms_of (map plain_arm made.items) ≡ arm_then (arm (stands n.now s n.now.subject 3) (one (answered n.now s true))) (arm_then (arm (EBinary And (stands n.now s n.now.subject 0) (EBinary Equal (EName n.now.kind s) (number s has_failed) s) s) (in_front (call_line n.now s (codes "F")) (one (answered n.now s true)))) no_arm)) }
{
    let failed = one_arm(alloc, failed_arm(alloc, n, s));
    arms_before(alloc, lost_arm(alloc, n, s), failed)
}

// All branches of a call that has come back.
fn back_arms(alloc: Global, x: &AbortReporter, s: Span) -> Result<Vec<Arm>, Memory>
    ensures { IfOk result (λ made. one (SIf (arms_of (map plain_arm made.items)) absent s) ≡ on_back (told_of x.now) s) }
{
    let others = other_arms(alloc, &x.reporter.tables.added, s);
    arms_before(alloc, met_arm(alloc, x, s), others)
}

/// A task's call has come back.
pub(crate) fn on_back(alloc: Global, x: &AbortReporter, s: Span) -> Result<Vec<Stmt>, Memory>
    ensures { IfOk result (λ made. seen made.items ≡ on_back (told_of x.now) s) }
{
    one_stmt(alloc, if_of(back_arms(alloc, x, s), Ok(None), s))
}
