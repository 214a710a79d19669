// Accept statements.

ghost use Rattle.std.specs.Prelude.{◌≡◌, ◌∷◌, ◌++◌, [], IfOk, OnOk, map};
ghost use Rattle.ada_tree.specs.PlainStmt.{accepting, plain_accept, plain_formal, plain_stmt, seen, seen_maybe};
ghost use Rattle.normal_model.specs.Waits.{head_of};
ghost use Rattle.collect_model.specs.Serving.{caller_formal, begin_note, finish_note, body_watched, accept_body, accept_told};
ghost use Rattle.collect_statements.specs.Looked.{teller_of};

use crate::Reporter;
use crate::calling::{entry_of, member_number};
use crate::kinds::{AT_FINISH, HAS_BEGUN};
use crate::noting::{note, own_note};
use crate::parts::raising;
use ada_stmt_copy::building::{accepting_of, block_of, body_of};
use ada_stmt_copy::expressions::{ExprCopy, copy_option};
use ada_tree::{Accept, Formal, Memory, NameId, ParMode, Span, Stmt, Word};
use collect_model::AddedNames;
use replay_asking::making::before;
use replay_asking::{whatever, word};
use std::alloc::Global;
use tree_rewriting::making::{
    keep_formals, name_expr, one_stmt, push_formal, some_stmts, take_maybe,
};

/// A list of one word.
pub fn one_word(alloc: Global, part: Word) -> Result<Vec<Word>, Memory>
    ensures { IfOk result (λ made. made.items ≡ part ∷ []) }
{
    let mut words = Vec::new(alloc);
    words.push(part)?;
    Ok(words)
}

// The formal by which an acceptor knows its caller.
fn caller_formal(alloc: Global, n: &AddedNames, s: Span) -> Result<Formal, Memory>
    ensures { IfOk result (λ made. plain_formal made ≡ caller_formal n.now s) }
{
    match one_word(alloc, word(n.caller, s)) {
        Ok(names) => Ok(Formal {
            names,
            mode: ParMode::Take,
            mark: word(NameId::INTEGER, s),
        }),
        Err(e) => Err(e),
    }
}

// Copies of formals go behind others.
fn put_copies(alloc: Global, formals: &[Formal], out: &mut Vec<Formal>) -> Result<(), Memory>
    ensures { OnOk result (map plain_formal out.new.items ≡ map plain_formal out.old.items ++ map plain_formal formals.now) }
{
    for formal in formals {
        push_formal(out, formal.copy(alloc))?;
    }
    Ok(())
}

// The formal of the caller, and copies of formals behind it, go behind others.
fn put_formals(
    alloc: Global,
    n: &AddedNames,
    formals: &[Formal],
    s: Span,
    out: &mut Vec<Formal>,
) -> Result<(), Memory>
    ensures { OnOk result (map plain_formal out.new.items ≡ map plain_formal out.old.items ++ caller_formal n.now s ∷ map plain_formal formals.now) }
{
    push_formal(out, caller_formal(alloc, n, s))?;
    put_copies(alloc, formals, out)
}

/// The formal by which an acceptor knows its caller, and copies of formals behind it.
pub fn formals_telling(
    alloc: Global,
    n: &AddedNames,
    formals: &[Formal],
    s: Span,
) -> Result<Vec<Formal>, Memory>
    ensures { IfOk result (λ made. map plain_formal made.items ≡ caller_formal n.now s ∷ map plain_formal formals.now) }
{
    let mut made = Vec::new(alloc);
    let done = put_formals(alloc, n, formals, s, &mut made);
    keep_formals(made, done)
}

/// The note that the caller's call has been accepted.
pub fn begin_note(alloc: Global, x: &Reporter, accept: &Accept, s: Span) -> Result<Stmt, Memory>
    ensures { IfOk result (λ made. plain_stmt made ≡ begin_note (teller_of x.now) s (head_of (plain_accept accept.now))) }
{
    let entry = entry_of(x.numbers, x.task, accept.entry.name);
    let caller = Ok(name_expr(x.tables.added.caller, s));
    let member = member_number(alloc, x, entry, accept.index.as_ref(), s);
    note(alloc, x, HAS_BEGUN, caller, entry, member, x.task, s)
}

// The note that the task is at the end of the accept body.
fn finish_note(alloc: Global, x: &Reporter, s: Span) -> Result<Stmt, Memory>
    ensures { IfOk result (λ made. plain_stmt made ≡ finish_note (teller_of x.now) s) }
{
    own_note(alloc, x, AT_FINISH, 0, s)
}

// The statements of an accept body, in a block that tells of the end where they raise an exception.
fn body_watched(alloc: Global, x: &Reporter, stmts: Vec<Stmt>, s: Span) -> Result<Stmt, Memory>
    ensures { IfOk result (λ made. plain_stmt made ≡ body_watched (teller_of x.now) s (seen stmts.items)) }
{
    let ending = before(alloc, finish_note(alloc, x, s), raising(alloc, s));
    block_of(body_of(Ok(stmts), whatever(alloc, ending, s)), s)
}

// What stands in the accept body.
fn accept_body(
    alloc: Global,
    x: &Reporter,
    accept: &Accept,
    stmts: Option<Vec<Stmt>>,
    s: Span,
) -> Result<Vec<Stmt>, Memory>
    ensures { IfOk result (λ made. seen made.items ≡ accept_body (teller_of x.now) s (head_of (plain_accept accept.now)) (seen_maybe stmts)) }
{
    let begun = begin_note(alloc, x, accept, s);
    let finish = one_stmt(alloc, finish_note(alloc, x, s));
    match stmts {
        None => before(alloc, begun, finish),
        Some(stmts) => {
            let watched = before(alloc, body_watched(alloc, x, stmts, s), finish);
            before(alloc, begun, watched)
        }
    }
}

// What stands in the place of an accept with the head of another, and these statements.
fn accept_left(
    alloc: Global,
    x: &Reporter,
    accept: &Accept,
    stmts: Option<Vec<Stmt>>,
    s: Span,
) -> Result<Accept, Memory>
    ensures { IfOk result (λ made. plain_accept made ≡ accept_told (teller_of x.now) s (accepting (head_of (plain_accept accept.now)) (seen_maybe stmts))) }
{
    let index = copy_option(alloc, &accept.index);
    let formals = formals_telling(alloc, &x.tables.added, &accept.formals, accept.entry.span);
    let inner = some_stmts(accept_body(alloc, x, accept, stmts, s));
    accepting_of(accept.entry, index, formals, inner, accept.span)
}

/// What stands in the place of an accept, whose statements are taken from where they stand.
pub(crate) fn accept_told(
    alloc: Global,
    x: &Reporter,
    accept: &mut Accept,
    s: Span,
) -> Result<Accept, Memory>
    ensures { IfOk result (λ made. plain_accept made ≡ accept_told (teller_of x.now) s (plain_accept accept.old)) }
{
    let stmts = take_maybe(&mut accept.stmts);
    accept_left(alloc, x, accept, stmts, s)
}
