// A task asks for a permit, says that it is done, and stops.

ghost use Rattle.std.specs.Prelude.{◌≡◌, IfOk, OnOk, map};
ghost use Rattle.ada_tree.specs.PlainExpr.{plain_expr};
ghost use Rattle.ada_tree.specs.PlainStmt.{plain_arm, plain_stmt, seen, arms_of};
ghost use Rattle.normal_model.specs.Ranges.{word_at};
ghost use Rattle.ada_stmt_copy.specs.expressions.Parts.{OkWith};
ghost use Rattle.replay_asking.specs.Spoken.{own_number, permit_parts, ask, done, stop, only, ask_only, ask_which};
ghost use Rattle.replay_asking.specs.Looked.{voice_of};

use crate::Speaker;
use crate::making::before;
use crate::names::AddedNames;
use ada_stmt_copy::building::{call_of, if_of};
use ada_tree::{Arm, BinaryOp, Expr, Memory, NameId, Span, Stmt, Word};
use std::alloc::Global;
use tree_rewriting::making::{
    args_of, binary_of, calling_of, if_one, integer_expr, keep_exprs, name_expr, one_expr,
    one_stmt, push_expr, some_args, some_exprs, some_stmts,
};

/// A name at a place.
pub fn word(name: NameId, span: Span) -> Word
    ensures { result ≡ word_at span name }
{
    Word { name, span }
}

// The number of the task, as a list.
fn own_number(alloc: Global, x: &Speaker, s: Span) -> Result<Vec<Expr>, Memory>
    ensures { IfOk result (λ made. map plain_expr made.items ≡ own_number (voice_of x.now) s) }
{
    one_expr(alloc, Ok(integer_expr(x.task, s)))
}

// The variables of the permit.
fn permit_parts(alloc: Global, names: &AddedNames, s: Span) -> Result<Vec<Expr>, Memory>
    ensures { IfOk result (λ made. map plain_expr made.items ≡ permit_parts names.now s) }
{
    let mut parts = Vec::new(alloc);
    let first = push_expr(&mut parts, Ok(name_expr(names.kind, s)));
    let second = push_expr(&mut parts, Ok(name_expr(names.argument, s)));
    let third = push_expr(&mut parts, Ok(name_expr(names.index, s)));
    keep_exprs(parts, both_done(first, both_done(second, third)))
}

// Two steps that went well.
fn both_done(first: Result<(), Memory>, second: Result<(), Memory>) -> Result<(), Memory>
    ensures { OnOk result (OkWith first (λ _. OkWith second (λ _. Unit {0}))) }
{
    match first {
        Ok(()) => second,
        Err(e) => Err(e),
    }
}

/// The task asks for a permit.
pub fn ask(alloc: Global, x: &Speaker, s: Span) -> Result<Stmt, Memory>
    ensures { IfOk result (λ made. plain_stmt made ≡ ask (voice_of x.now) s) }
{
    let names = &x.tables.added;
    let args = args_of(
        own_number(alloc, x, s),
        some_exprs(permit_parts(alloc, names, s)),
    );
    call_of(
        calling_of(word(names.control, s), word(names.go, s), some_args(args)),
        s,
    )
}

/// The task says that it has done what its permit was for.
pub fn done(alloc: Global, x: &Speaker, s: Span) -> Result<Stmt, Memory>
    ensures { IfOk result (λ made. plain_stmt made ≡ done (voice_of x.now) s) }
{
    let names = &x.tables.added;
    let args = args_of(own_number(alloc, x, s), Ok(None));
    call_of(
        calling_of(word(names.control, s), word(names.done, s), some_args(args)),
        s,
    )
}

// The task stops for ever.
fn stop(x: &Speaker, s: Span) -> Result<Stmt, Memory>
    ensures { IfOk result (λ made. plain_stmt made ≡ stop (voice_of x.now) s) }
{
    let names = &x.tables.added;
    call_of(
        calling_of(word(names.idle, s), word(names.stop, s), Ok(None)),
        s,
    )
}

// The task stops unless its permit is of this kind.
fn only(alloc: Global, x: &Speaker, k: u32, s: Span) -> Result<Stmt, Memory>
    ensures { IfOk result (λ made. plain_stmt made ≡ only (voice_of x.now) s k) }
{
    let kind = name_expr(x.tables.added.kind, s);
    let test = binary_of(
        alloc,
        BinaryOp::NotEqual,
        Ok(kind),
        Ok(integer_expr(k, s)),
        s,
    );
    if_one(alloc, test, one_stmt(alloc, stop(x, s)), Ok(None), s)
}

/// The task asks, and goes on only with a permit of this kind.
pub fn ask_only(alloc: Global, x: &Speaker, k: u32, s: Span) -> Result<Vec<Stmt>, Memory>
    ensures { IfOk result (λ made. seen made.items ≡ ask_only (voice_of x.now) s k) }
{
    before(
        alloc,
        ask(alloc, x, s),
        one_stmt(alloc, only(alloc, x, k, s)),
    )
}

/// The task asks, takes the first of these branches whose permit it has, and stops where there is none.
pub fn ask_which(
    alloc: Global,
    x: &Speaker,
    arms: Result<Vec<Arm>, Memory>,
    s: Span,
) -> Result<Vec<Stmt>, Memory>
    ensures { IfOk result (λ made. OkWith arms (λ a. seen made.items ≡ ask_which (voice_of x.now) s (arms_of (map plain_arm a.items)))) }
{
    let stopping = some_stmts(one_stmt(alloc, stop(x, s)));
    before(
        alloc,
        ask(alloc, x, s),
        one_stmt(alloc, if_of(arms, stopping, s)),
    )
}
