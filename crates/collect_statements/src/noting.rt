// Notes: what a task tells the recorder.

ghost use Rattle.std.specs.Prelude.{◌≡◌, ◌∷◌, ◌++◌, [], IfOk, OnOk, map};
ghost use Rattle.ada_tree.specs.PlainExpr.{plain_expr, EName};
ghost use Rattle.ada_tree.specs.PlainStmt.{plain_stmt};
ghost use Rattle.ada_stmt_copy.specs.expressions.Parts.{OkWith};
ghost use Rattle.collect_model.specs.Noting.{number, note, note_actuals, own_note};
ghost use Rattle.collect_statements.specs.Looked.{teller_of};

use crate::Reporter;
use ada_stmt_copy::building::call_of;
use ada_tree::{Expr, Memory, Span, Stmt};
use replay_asking::word;
use std::alloc::Global;
use tree_rewriting::making::{
    args_of, calling_of, integer_expr, keep_exprs, name_expr, push_expr, some_args,
};

// Two steps that went well.
fn both_done(first: Result<(), Memory>, second: Result<(), Memory>) -> Result<(), Memory>
    ensures { OnOk result (OkWith first (λ _. OkWith second (λ _. Unit {0}))) }
{
    match first {
        Ok(()) => second,
        Err(e) => Err(e),
    }
}

// The first actuals of a note go behind others: its kind, the task that it is about, and an entry or a delay alternative.
fn put_first(
    actuals: &mut Vec<Expr>,
    kind: u32,
    subject: Result<Expr, Memory>,
    argument: u32,
    s: Span,
) -> Result<(), Memory>
    ensures { OnOk result (OkWith subject (λ t. map plain_expr actuals.new.items ≡ map plain_expr actuals.old.items ++ number s kind ∷ plain_expr t ∷ number s argument ∷ [])) }
{
    let first = push_expr(actuals, Ok(integer_expr(kind, s)));
    let second = push_expr(actuals, subject);
    let third = push_expr(actuals, Ok(integer_expr(argument, s)));
    both_done(first, both_done(second, third))
}

// The last actuals of a note go behind others: the member of a family, the owner of an entry, and the variable of the answer.
fn put_last(
    x: &Reporter,
    actuals: &mut Vec<Expr>,
    member: Result<Expr, Memory>,
    owner: u32,
    s: Span,
) -> Result<(), Memory>
    ensures { OnOk result (OkWith member (λ i. map plain_expr actuals.new.items ≡ map plain_expr actuals.old.items ++ plain_expr i ∷ number s owner ∷ EName (teller_of x.now).added.answer s ∷ [])) }
{
    let first = push_expr(actuals, member);
    let second = push_expr(actuals, Ok(integer_expr(owner, s)));
    let third = push_expr(actuals, Ok(name_expr(x.tables.added.answer, s)));
    both_done(first, both_done(second, third))
}

// The actuals of a note.
fn note_actuals(
    alloc: Global,
    x: &Reporter,
    kind: u32,
    subject: Result<Expr, Memory>,
    argument: u32,
    member: Result<Expr, Memory>,
    owner: u32,
    s: Span,
) -> Result<Vec<Expr>, Memory>
    ensures { IfOk result (λ made. OkWith subject (λ t. OkWith member (λ i. map plain_expr made.items ≡ note_actuals (teller_of x.now) s kind (plain_expr t) argument (plain_expr i) owner))) }
{
    let mut actuals = Vec::new(alloc);
    let first = put_first(&mut actuals, kind, subject, argument, s);
    let last = put_last(x, &mut actuals, member, owner, s);
    keep_exprs(actuals, both_done(first, last))
}

/// A note of a kind about a task, with an entry or a delay alternative, the member of a family, and the owner of the entry.
pub fn note(
    alloc: Global,
    x: &Reporter,
    kind: u32,
    subject: Result<Expr, Memory>,
    argument: u32,
    member: Result<Expr, Memory>,
    owner: u32,
    s: Span,
) -> Result<Stmt, Memory>
    ensures { IfOk result (λ made. OkWith subject (λ t. OkWith member (λ i. plain_stmt made ≡ note (teller_of x.now) s kind (plain_expr t) argument (plain_expr i) owner))) }
{
    let names = &x.tables.added;
    let actuals = note_actuals(alloc, x, kind, subject, argument, member, owner, s);
    let args = some_args(args_of(actuals, Ok(None)));
    call_of(
        calling_of(word(names.recorder, s), word(names.note, s), args),
        s,
    )
}

/// A note of the task about itself, with no entry.
pub fn own_note(
    alloc: Global,
    x: &Reporter,
    kind: u32,
    argument: u32,
    s: Span,
) -> Result<Stmt, Memory>
    ensures { IfOk result (λ made. plain_stmt made ≡ own_note (teller_of x.now) s kind argument) }
{
    let own = Ok(integer_expr(x.task, s));
    note(alloc, x, kind, own, argument, Ok(integer_expr(0, s)), 0, s)
}
