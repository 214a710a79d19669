// The recorder's body.

ghost use Rattle.std.specs.Prelude.{◌≡◌, ◌∷◌, ◌++◌, [], None, IfOk, OnOk, map};
ghost use Rattle.ada_tree.specs.PlainStmt.{AAccept, ATerminate, alt_then, alternative, alts_of, no_alt, no_stmt, plain_accept, plain_alt, plain_stmt, seen};
ghost use Rattle.ada_tree.specs.PlainDecl.{plain_decl};
ghost use Rattle.collect_model.specs.Recording.{flags_declared, note_taken, note_accept, notes_taken, recorder_body};

use crate::recorder::declaring::note_formals;
use crate::recorder::flags::{answered, flags_declared};
use crate::recorder::lines::header_put;
use crate::recorder::noting::branches;
use ada_stmt_copy::building::{
    accept_alternative_of, accepting_of, body_of, case_others_of, loop_of,
    terminate_alternative_of, wait_of,
};
use ada_tree::{Accept, Alt, Decl, Memory, Span, Stmt};
use ada_tree_copy::building::task_body_of;
use collect_model::AddedNames;
use replay_asking::making::{alts_before, before};
use replay_asking::word;
use std::alloc::Global;
use tree_rewriting::making::{
    keep_decls, name_expr, null_stmt, one_alt, one_stmt, push_decl, some_stmts,
};

// What is done with a note: its answer is FALSE, and then its branch is taken.
fn note_taken(alloc: Global, n: &AddedNames, s: Span) -> Result<Vec<Stmt>, Memory>
    ensures { IfOk result (λ made. seen made.items ≡ note_taken n.now s) }
{
    let nothing = one_stmt(alloc, Ok(null_stmt(s)));
    let kind = Ok(name_expr(n.kind, s));
    let choice = case_others_of(kind, branches(alloc, n, s), nothing, s);
    before(alloc, answered(n, false, s), one_stmt(alloc, choice))
}

// The accept that takes a note.
fn note_accept(alloc: Global, n: &AddedNames, s: Span) -> Result<Accept, Memory>
    ensures { IfOk result (λ made. plain_accept made ≡ note_accept n.now s) }
{
    let formals = note_formals(alloc, n, s);
    let stmts = some_stmts(note_taken(alloc, n, s));
    accepting_of(word(n.note, s), Ok(None), formals, stmts, s)
}

// The alternatives of the recorder's wait: it takes a note, or terminates.
fn note_alternatives(alloc: Global, n: &AddedNames, s: Span) -> Result<Vec<Alt>, Memory>
    ensures { IfOk result (λ made. alts_of (map plain_alt made.items) ≡ alt_then (alternative None (AAccept (note_accept n.now s) no_stmt) s) (alt_then (alternative None ATerminate s) no_alt)) }
{
    let accept = note_accept(alloc, n, s);
    let first = accept_alternative_of(Ok(None), accept, Ok(Vec::new(alloc)), s);
    let last = one_alt(alloc, terminate_alternative_of(Ok(None), s));
    alts_before(alloc, first, last)
}

// The loop that takes notes as long as there are any.
fn notes_taken(alloc: Global, n: &AddedNames, s: Span) -> Result<Stmt, Memory>
    ensures { IfOk result (λ made. plain_stmt made ≡ notes_taken n.now s) }
{
    let wait = wait_of(note_alternatives(alloc, n, s), Ok(None), s);
    loop_of(None, Ok(None), one_stmt(alloc, wait), s)
}

// The declarations of the flags go behind others.
fn put_flags(alloc: Global, n: &AddedNames, s: Span, out: &mut Vec<Decl>) -> Result<(), Memory>
    ensures { OnOk result (map plain_decl out.new.items ≡ map plain_decl out.old.items ++ flags_declared n.now s n.now.gone ∷ flags_declared n.now s n.now.met ∷ []) }
{
    push_decl(out, flags_declared(alloc, n, n.gone, s))?;
    push_decl(out, flags_declared(alloc, n, n.met, s))
}

// The declarations of the flags.
fn both_flags(alloc: Global, n: &AddedNames, s: Span) -> Result<Vec<Decl>, Memory>
    ensures { IfOk result (λ made. map plain_decl made.items ≡ flags_declared n.now s n.now.gone ∷ flags_declared n.now s n.now.met ∷ []) }
{
    let mut flags = Vec::new(alloc);
    let done = put_flags(alloc, n, s, &mut flags);
    keep_decls(flags, done)
}

/// The recorder's body, which writes this header and then takes notes.
pub(crate) fn recorder_body(
    alloc: Global,
    n: &AddedNames,
    header: &str,
    s: Span,
) -> Result<Decl, Memory>
    ensures { IfOk result (λ made. plain_decl made ≡ recorder_body n.now s header.now) }
{
    let notes = one_stmt(alloc, notes_taken(alloc, n, s));
    let stmts = before(alloc, header_put(alloc, header, s), notes);
    let its = body_of(stmts, Ok(Vec::new(alloc)));
    task_body_of(word(n.recorder, s), both_flags(alloc, n, s), its, s)
}
