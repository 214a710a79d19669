// Accept statements.

ghost use Rattle.std.specs.Prelude.{◌≡◌, IfOk, map};
ghost use Rattle.ada_tree.specs.PlainExpr.{plain_expr};
ghost use Rattle.ada_tree.specs.PlainStmt.{SAccept, accepting, present, stmt_then, plain_accept, plain_handler, plain_stmt, seen, seen_maybe, handlers_of};
ghost use Rattle.normal_model.specs.Making.{one};
ghost use Rattle.normal_model.specs.Waits.{head_of};
ghost use Rattle.ada_stmt_copy.specs.expressions.Parts.{OkWith};
ghost use Rattle.task_model.specs.Setting.{entry_of};
ghost use Rattle.replay_model.specs.Serving.{raise_again, whatever};
ghost use Rattle.replay_asking.specs.Served.{finish, body_kept, accept_body, saying_so, serve, permits_start, accept_image};
ghost use Rattle.replay_asking.specs.Spoken.{done};
ghost use Rattle.replay_asking.specs.Looked.{voice_of};

use crate::Speaker;
use crate::making::{before, joined};
use crate::saying::{ask_only, ask_which, done};
use crate::testing::is_at;
use ada_stmt_copy::building::{accept_of, accepting_of, arm_of, block_of, body_of};
use ada_stmt_copy::expressions::{copy_formals, copy_option};
use ada_tree::{Accept, Expr, Handler, Memory, NameId, Span, Stmt};
use control_script::{KIND_FINISH, KIND_START};
use std::alloc::Global;
use task_links::TaskNames;
use tree_rewriting::making::{
    handler_others, one_arm, one_handler, one_stmt, reraise_stmt, some_stmts, take_maybe,
};

/// `when others =>` these statements.
pub fn whatever(
    alloc: Global,
    stmts: Result<Vec<Stmt>, Memory>,
    s: Span,
) -> Result<Vec<Handler>, Memory>
    ensures { IfOk result (λ made. OkWith stmts (λ k. handlers_of (map plain_handler made.items) ≡ whatever s (seen k.items))) }
{
    one_handler(alloc, handler_others(alloc, stmts, s))
}

// `raise;` as a row.
fn raising(alloc: Global, s: Span) -> Result<Vec<Stmt>, Memory>
    ensures { IfOk result (λ made. seen made.items ≡ one (raise_again s)) }
{
    one_stmt(alloc, Ok(reraise_stmt(s)))
}

// The body of an accept statement, between the event's begin and its end.
fn body_kept(alloc: Global, x: &Speaker, stmts: Vec<Stmt>, s: Span) -> Result<Stmt, Memory>
    ensures { IfOk result (λ made. plain_stmt made ≡ body_kept (voice_of x.now) s (seen stmts.items)) }
{
    let ending = joined(ask_only(alloc, x, KIND_FINISH, s), raising(alloc, s));
    block_of(body_of(Ok(stmts), whatever(alloc, ending, s)), s)
}

// What stands in the body of an accept statement.
fn accept_body(
    alloc: Global,
    x: &Speaker,
    stmts: Option<Vec<Stmt>>,
    s: Span,
) -> Result<Vec<Stmt>, Memory>
    ensures { IfOk result (λ made. seen made.items ≡ accept_body (voice_of x.now) s (seen_maybe stmts)) }
{
    let finish = ask_only(alloc, x, KIND_FINISH, s);
    match stmts {
        None => before(alloc, done(alloc, x, s), finish),
        Some(stmts) => before(
            alloc,
            done(alloc, x, s),
            before(alloc, body_kept(alloc, x, stmts, s), finish),
        ),
    }
}

/// A statement that says that it is done also where it raises an exception.
pub fn saying_so(
    alloc: Global,
    x: &Speaker,
    stmt: Result<Stmt, Memory>,
    s: Span,
) -> Result<Stmt, Memory>
    ensures { IfOk result (λ made. OkWith stmt (λ y. plain_stmt made ≡ saying_so (voice_of x.now) s (plain_stmt y))) }
{
    let ending = before(alloc, done(alloc, x, s), raising(alloc, s));
    block_of(
        body_of(one_stmt(alloc, stmt), whatever(alloc, ending, s)),
        s,
    )
}

// The entry of that name that a task has.
pub(crate) fn entry_of(numbers: &TaskNames, task: u32, name: NameId) -> u32
    ensures { result ≡ entry_of numbers.now task name }
{
    match numbers.entry_named(task, name) {
        Some(entry) => entry,
        None => 0,
    }
}

// An accept statement with the head of another, and these statements.
fn accept_with(
    alloc: Global,
    accept: &Accept,
    stmts: Result<Vec<Stmt>, Memory>,
    s: Span,
) -> Result<Stmt, Memory>
    ensures { IfOk result (λ made. OkWith stmts (λ k. plain_stmt made ≡ SAccept (accepting (head_of (plain_accept accept.now)) (present (seen k.items))) s)) }
{
    let index = copy_option(alloc, &accept.index);
    let formals = copy_formals(alloc, &accept.formals);
    accept_of(
        accepting_of(accept.entry, index, formals, some_stmts(stmts), accept.span),
        s,
    )
}

// An accept statement that says that it is done also where it raises an exception, and what follows it.
fn said(
    alloc: Global,
    x: &Speaker,
    asked: Result<Stmt, Memory>,
    s: Span,
) -> Result<Vec<Stmt>, Memory>
    ensures { IfOk result (λ made. OkWith asked (λ y. seen made.items ≡ stmt_then (saying_so (voice_of x.now) s (plain_stmt y)) (one (done (voice_of x.now) s)))) }
{
    let end = one_stmt(alloc, done(alloc, x, s));
    before(alloc, saying_so(alloc, x, asked, s), end)
}

// The same of an accept statement without statements of its own.
fn unsaid(
    alloc: Global,
    x: &Speaker,
    asked: Result<Stmt, Memory>,
    s: Span,
) -> Result<Vec<Stmt>, Memory>
    ensures { IfOk result (λ made. OkWith asked (λ y. seen made.items ≡ stmt_then (plain_stmt y) (one (done (voice_of x.now) s)))) }
{
    before(alloc, asked, one_stmt(alloc, done(alloc, x, s)))
}

// The rendezvous of an accept statement with the head of another, and these statements.
fn serve_left(
    alloc: Global,
    x: &Speaker,
    accept: &Accept,
    stmts: Option<Vec<Stmt>>,
    s: Span,
) -> Result<Vec<Stmt>, Memory>
    ensures { IfOk result (λ made. seen made.items ≡ serve (voice_of x.now) s (accepting (head_of (plain_accept accept.now)) (seen_maybe stmts))) }
{
    match stmts {
        None => {
            let asked = accept_with(alloc, accept, accept_body(alloc, x, None, s), s);
            unsaid(alloc, x, asked, s)
        }
        Some(stmts) => {
            let asked = accept_with(alloc, accept, accept_body(alloc, x, Some(stmts), s), s);
            said(alloc, x, asked, s)
        }
    }
}

/// The rendezvous of an accept statement, from the permit for its begin on. Its statements are taken from where they stand.
pub fn serve(alloc: Global, x: &Speaker, accept: &mut Accept, s: Span) -> Result<Vec<Stmt>, Memory>
    ensures { IfOk result (λ made. seen made.items ≡ serve (voice_of x.now) s (plain_accept accept.old)) }
{
    let stmts = take_maybe(&mut accept.stmts);
    serve_left(alloc, x, accept, stmts, s)
}

/// The permit is for the begin of the rendezvous of this accept statement.
pub fn is_served(alloc: Global, x: &Speaker, accept: &Accept, s: Span) -> Result<Expr, Memory>
    ensures { IfOk result (λ made. plain_expr made ≡ permits_start (voice_of x.now) s (head_of (plain_accept accept.now))) }
{
    let entry = entry_of(x.numbers, x.task, accept.entry.name);
    is_at(alloc, x, KIND_START, entry, accept.index.as_ref(), s)
}

/// What stands in the place of an accept statement, whose statements are taken from where they stand.
pub fn accept_image(
    alloc: Global,
    x: &Speaker,
    accept: &mut Accept,
    s: Span,
) -> Result<Vec<Stmt>, Memory>
    ensures { IfOk result (λ made. seen made.items ≡ accept_image (voice_of x.now) s (plain_accept accept.old)) }
{
    let test = is_served(alloc, x, accept, s);
    let served = serve(alloc, x, accept, s);
    ask_which(alloc, x, one_arm(alloc, arm_of(test, served)), s)
}
