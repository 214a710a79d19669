// Notes that a program with abort statements has beside the others.

ghost use Rattle.std.specs.Prelude.{◌≡◌, ◌∷◌, ◌++◌, [], IfOk, OnOk, map};
ghost use Rattle.ada_tree.specs.PlainExpr.{plain_expr, EName};
ghost use Rattle.ada_tree.specs.PlainStmt.{plain_stmt, seen};
ghost use Rattle.ada_stmt_copy.specs.expressions.Parts.{OkWith};
ghost use Rattle.collect_model.specs.Noting.{number};
ghost use Rattle.collect_model.specs.aborts.Noting.{note_about, over, returned_then};
ghost use Rattle.collect_statements.specs.Looked.{teller_of};
ghost use Rattle.collect_abort.specs.Looked.{told_of};

use crate::kinds::HAS_RETURNED;
use crate::teller::{AbortReporter, taken_expr};
use ada_stmt_copy::building::call_of;
use ada_tree::{Expr, Memory, Span, Stmt};
use collect_statements::kinds::AT_FINISH;
use collect_statements::{Reporter, fails_late, own_note};
use replay_asking::making::before;
use replay_asking::word;
use std::alloc::Global;
use tree_rewriting::making::{
    args_of, calling_of, integer_expr, keep_exprs, name_expr, push_expr, some_args,
};

// Two steps that went well.
fn both_done(first: Result<(), Memory>, second: Result<(), Memory>) -> Result<(), Memory>
    ensures { OnOk result (OkWith first (λ _. OkWith second (λ _. Unit {0}))) }
{
    match first {
        Ok(()) => second,
        Err(e) => Err(e),
    }
}

// The first actuals of a note go behind others: its kind, the task that it is about, and its argument.
fn put_first(
    actuals: &mut Vec<Expr>,
    kind: u32,
    subject: Result<Expr, Memory>,
    argument: Result<Expr, Memory>,
    s: Span,
) -> Result<(), Memory>
    ensures { OnOk result (OkWith subject (λ t. OkWith argument (λ a. map plain_expr actuals.new.items ≡ map plain_expr actuals.old.items ++ number s kind ∷ plain_expr t ∷ plain_expr a ∷ []))) }
{
    let first = push_expr(actuals, Ok(integer_expr(kind, s)));
    let second = push_expr(actuals, subject);
    let third = push_expr(actuals, argument);
    both_done(first, both_done(second, third))
}

// The last actuals of a note without an entry go behind others.
fn put_last(x: &Reporter, actuals: &mut Vec<Expr>, s: Span) -> Result<(), Memory>
    ensures { OnOk result (map plain_expr actuals.new.items ≡ map plain_expr actuals.old.items ++ number s 0 ∷ number s 0 ∷ EName (teller_of x.now).added.answer s ∷ []) }
{
    let first = push_expr(actuals, Ok(integer_expr(0, s)));
    let second = push_expr(actuals, Ok(integer_expr(0, s)));
    let third = push_expr(actuals, Ok(name_expr(x.tables.added.answer, s)));
    both_done(first, both_done(second, third))
}

// The actuals of a note.
fn note_actuals(
    alloc: Global,
    x: &Reporter,
    kind: u32,
    subject: Result<Expr, Memory>,
    argument: Result<Expr, Memory>,
    s: Span,
) -> Result<Vec<Expr>, Memory>
    ensures { IfOk result (λ made. OkWith subject (λ t. OkWith argument (λ a. map plain_expr made.items ≡ number s kind ∷ plain_expr t ∷ plain_expr a ∷ number s 0 ∷ number s 0 ∷ EName (teller_of x.now).added.answer s ∷ []))) }
{
    let mut actuals = Vec::new(alloc);
    let first = put_first(&mut actuals, kind, subject, argument, s);
    let last = put_last(x, &mut actuals, s);
    keep_exprs(actuals, both_done(first, last))
}

// A note of a kind about a task, with an argument that is an expression, and no entry.
fn note_about(
    alloc: Global,
    x: &Reporter,
    kind: u32,
    subject: Result<Expr, Memory>,
    argument: Result<Expr, Memory>,
    s: Span,
) -> Result<Stmt, Memory>
    ensures { IfOk result (λ made. OkWith subject (λ t. OkWith argument (λ a. plain_stmt made ≡ note_about (teller_of x.now) s kind (plain_expr t) (plain_expr a)))) }
{
    let names = &x.tables.added;
    let actuals = note_actuals(alloc, x, kind, subject, argument, s);
    let args = some_args(args_of(actuals, Ok(None)));
    call_of(
        calling_of(word(names.recorder, s), word(names.note, s), args),
        s,
    )
}

/// The note that the rendezvous of the own task with the caller that it took last at a place is over.
pub(crate) fn over(alloc: Global, x: &AbortReporter, place: u32, s: Span) -> Result<Stmt, Memory>
    ensures { IfOk result (λ made. plain_stmt made ≡ over (told_of x.now) s place) }
{
    let own = Ok(integer_expr(x.reporter.task, s));
    note_about(
        alloc,
        &x.reporter,
        AT_FINISH,
        own,
        taken_expr(alloc, x, place, s),
        s,
    )
}

/// The note that the own call has come back, the test of the answer, and what follows.
pub(crate) fn returned_then(
    alloc: Global,
    x: &Reporter,
    rest: Result<Vec<Stmt>, Memory>,
    s: Span,
) -> Result<Vec<Stmt>, Memory>
    ensures { IfOk result (λ made. OkWith rest (λ r. seen made.items ≡ returned_then (teller_of x.now) s (seen r.items))) }
{
    let late = before(alloc, fails_late(alloc, x, s), rest);
    before(alloc, own_note(alloc, x, HAS_RETURNED, 0, s), late)
}
