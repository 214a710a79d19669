// Accept statements, and what stands around what accepts.

ghost use Rattle.std.specs.Prelude.{◌≡◌, IfOk};
ghost use Rattle.ada_tree.specs.PlainExpr.{plain_expr};
ghost use Rattle.ada_tree.specs.PlainStmt.{accepting, plain_accept, plain_stmt, seen, seen_maybe};
ghost use Rattle.ada_stmt_copy.specs.expressions.Parts.{OkWith};
ghost use Rattle.normal_model.specs.Ranges.{word_at};
ghost use Rattle.normal_model.specs.Waits.{head_of};
ghost use Rattle.collect_model.specs.aborts.Serving.{variable_is, is_not_refused, unless_refused, begins, accept_told, service_watched, repeated, accept_image};
ghost use Rattle.collect_abort.specs.Looked.{told_of};

use crate::noting::over;
use crate::teller::{AbortReporter, refused, refused_expr, taken};
use ada_stmt_copy::building::{accept_of, accepting_of, block_of, body_of, exit_of, loop_of};
use ada_stmt_copy::expressions::copy_option;
use ada_tree::{Accept, Expr, Memory, NameId, Span, Stmt, UnaryOp, Word};
use collect_statements::{begin_note, formals_telling, raising};
use replay_asking::making::before;
use replay_asking::{whatever, word};
use std::alloc::Global;
use tree_rewriting::making::{
    assignment_to, if_one, name_expr, one_stmt, some_expr, some_stmts, take_maybe, unary_of,
};

// ---- the accept body

// The word of a name that was found.
fn word_of(name: Result<NameId, Memory>, s: Span) -> Result<Word, Memory>
    ensures { IfOk result (λ made. OkWith name (λ id. made ≡ word_at s id)) }
{
    match name {
        Ok(name) => Ok(word(name, s)),
        Err(e) => Err(e),
    }
}

// A variable becomes another.
fn variable_is(name: Result<NameId, Memory>, value: NameId, s: Span) -> Result<Stmt, Memory>
    ensures { IfOk result (λ made. OkWith name (λ id. plain_stmt made ≡ variable_is s id value)) }
{
    assignment_to(word_of(name, s), Ok(name_expr(value, s)), s)
}

// The caller that was taken last at a place has not been refused.
fn is_not_refused(alloc: Global, x: &AbortReporter, place: u32, s: Span) -> Result<Expr, Memory>
    ensures { IfOk result (λ made. plain_expr made ≡ is_not_refused (told_of x.now) s place) }
{
    unary_of(alloc, UnaryOp::Not, refused_expr(alloc, x, place, s), s)
}

// The statements of an accept body, which are left out where the caller has been refused.
fn unless_refused(
    alloc: Global,
    x: &AbortReporter,
    place: u32,
    stmts: Option<Vec<Stmt>>,
    s: Span,
) -> Result<Vec<Stmt>, Memory>
    ensures { IfOk result (λ made. seen made.items ≡ unless_refused (told_of x.now) s place (seen_maybe stmts)) }
{
    match stmts {
        None => Ok(Vec::new(alloc)),
        Some(stmts) => {
            let test = is_not_refused(alloc, x, place, s);
            one_stmt(alloc, if_one(alloc, test, Ok(stmts), Ok(None), s))
        }
    }
}

// What stands in the accept body.
fn begins(
    alloc: Global,
    x: &AbortReporter,
    place: u32,
    accept: &Accept,
    stmts: Option<Vec<Stmt>>,
    s: Span,
) -> Result<Vec<Stmt>, Memory>
    ensures { IfOk result (λ made. seen made.items ≡ begins (told_of x.now) s place (head_of (plain_accept accept.now)) (seen_maybe stmts)) }
{
    let names = &x.reporter.tables.added;
    let inner = unless_refused(alloc, x, place, stmts, s);
    let answer = variable_is(refused(alloc, x, place), names.answer, s);
    let told = before(alloc, answer, inner);
    let begun = before(alloc, begin_note(alloc, &x.reporter, accept, s), told);
    let caller = variable_is(taken(alloc, x, place), names.caller, s);
    before(alloc, caller, begun)
}

// What stands in the place of an accept with the head of another, and these statements.
fn accept_left(
    alloc: Global,
    x: &AbortReporter,
    place: u32,
    accept: &Accept,
    stmts: Option<Vec<Stmt>>,
    s: Span,
) -> Result<Accept, Memory>
    ensures { IfOk result (λ made. plain_accept made ≡ accept_told (told_of x.now) s place (accepting (head_of (plain_accept accept.now)) (seen_maybe stmts))) }
{
    let names = &x.reporter.tables.added;
    let index = copy_option(alloc, &accept.index);
    let formals = formals_telling(alloc, names, &accept.formals, accept.entry.span);
    let inner = some_stmts(begins(alloc, x, place, accept, stmts, s));
    accepting_of(accept.entry, index, formals, inner, accept.span)
}

/// What stands in the place of an accept, whose statements are taken from where they stand.
pub(crate) fn accept_told(
    alloc: Global,
    x: &AbortReporter,
    place: u32,
    accept: &mut Accept,
    s: Span,
) -> Result<Accept, Memory>
    ensures { IfOk result (λ made. plain_accept made ≡ accept_told (told_of x.now) s place (plain_accept accept.old)) }
{
    let stmts = take_maybe(&mut accept.stmts);
    accept_left(alloc, x, place, accept, stmts, s)
}

// ---- what stands around it

/// A statement that accepts, in a block that tells that the rendezvous is over where it ends by an exception.
pub(crate) fn service_watched(
    alloc: Global,
    x: &AbortReporter,
    place: u32,
    stmt: Result<Stmt, Memory>,
    s: Span,
) -> Result<Stmt, Memory>
    ensures { IfOk result (λ made. OkWith stmt (λ y. plain_stmt made ≡ service_watched (told_of x.now) s place (plain_stmt y))) }
{
    let ending = before(alloc, over(alloc, x, place, s), raising(alloc, s));
    block_of(
        body_of(one_stmt(alloc, stmt), whatever(alloc, ending, s)),
        s,
    )
}

/// A loop of a statement, which is left behind it where this holds.
pub(crate) fn repeated(
    alloc: Global,
    stmt: Result<Stmt, Memory>,
    test: Result<Expr, Memory>,
    s: Span,
) -> Result<Stmt, Memory>
    ensures { IfOk result (λ made. OkWith stmt (λ y. OkWith test (λ e. plain_stmt made ≡ repeated s (plain_stmt y) (plain_expr e)))) }
{
    let exit = one_stmt(alloc, exit_of(None, some_expr(test), s));
    loop_of(None, Ok(None), before(alloc, stmt, exit), s)
}

/// What stands in the place of an accept statement, at a place of the unit.
pub(crate) fn accept_image(
    alloc: Global,
    x: &AbortReporter,
    place: u32,
    accept: &mut Accept,
    s: Span,
) -> Result<Vec<Stmt>, Memory>
    ensures { IfOk result (λ made. seen made.items ≡ accept_image (told_of x.now) s place (plain_accept accept.old)) }
{
    let stmt = accept_of(accept_told(alloc, x, place, accept, s), s);
    let watched = service_watched(alloc, x, place, stmt, s);
    let served = repeated(alloc, watched, is_not_refused(alloc, x, place, s), s);
    let ended = one_stmt(alloc, over(alloc, x, place, s));
    before(alloc, served, ended)
}
