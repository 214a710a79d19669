// The recorder's body.

ghost use Rattle.std.specs.Prelude.{◌≡◌, ◌∷◌, ◌++◌, [], None, IfOk, OnOk, map};
ghost use Rattle.ada_tree.specs.PlainStmt.{AAccept, ATerminate, alt_then, alternative, alts_of, no_alt, no_stmt, plain_accept, plain_alt, plain_stmt, seen};
ghost use Rattle.ada_tree.specs.PlainDecl.{plain_decl};
ghost use Rattle.normal_model.specs.Ranges.{word_at};
ghost use Rattle.collect_model.specs.Recording.{flags_declared};
ghost use Rattle.collect_model.specs.aborts.Recording.{calls_declared, note_taken, note_accept, notes_taken, recorder_body};
ghost use Rattle.collect_abort.specs.Looked.{told_of};

use crate::recorder::branches::branches;
use crate::teller::AbortReporter;
use ada_stmt_copy::building::{
    accept_alternative_of, accepting_of, body_of, case_others_of, loop_of,
    terminate_alternative_of, wait_of,
};
use ada_tree::{Accept, Alt, Bounds, Decl, Drange, Memory, NameId, Span, Stmt, Subind, Word};
use ada_tree_copy::building::{array_shape_of, object_of, others_of, task_body_of};
use collect_xform::recorder::{answered, flags_declared, header_put, note_formals};
use normal_parts::last_task;
use replay_asking::making::{alts_before, before, there_init};
use replay_asking::word;
use std::alloc::Global;
use tree_rewriting::making::{
    integer_expr, keep_decls, name_expr, null_stmt, one_alt, one_stmt, push_decl, some_stmts,
};

// ---- notes

// What is done with a note: its answer is FALSE, and then its branch is taken.
fn note_taken(alloc: Global, x: &AbortReporter, s: Span) -> Result<Vec<Stmt>, Memory>
    ensures { IfOk result (λ made. seen made.items ≡ note_taken (told_of x.now) s) }
{
    let n = &x.reporter.tables.added;
    let nothing = one_stmt(alloc, Ok(null_stmt(s)));
    let kind = Ok(name_expr(n.kind, s));
    let choice = case_others_of(kind, branches(alloc, x, s), nothing, s);
    before(alloc, answered(n, false, s), one_stmt(alloc, choice))
}

// The accept that takes a note.
fn note_accept(alloc: Global, x: &AbortReporter, s: Span) -> Result<Accept, Memory>
    ensures { IfOk result (λ made. plain_accept made ≡ note_accept (told_of x.now) s) }
{
    let n = &x.reporter.tables.added;
    let formals = note_formals(alloc, n, s);
    let stmts = some_stmts(note_taken(alloc, x, s));
    accepting_of(word(n.note, s), Ok(None), formals, stmts, s)
}

// The alternatives of the recorder's wait: it takes a note, or terminates.
fn note_alternatives(alloc: Global, x: &AbortReporter, s: Span) -> Result<Vec<Alt>, Memory>
    ensures { IfOk result (λ made. alts_of (map plain_alt made.items) ≡ alt_then (alternative None (AAccept (note_accept (told_of x.now) s) no_stmt) s) (alt_then (alternative None ATerminate s) no_alt)) }
{
    let accept = note_accept(alloc, x, s);
    let first = accept_alternative_of(Ok(None), accept, Ok(Vec::new(alloc)), s);
    let last = one_alt(alloc, terminate_alternative_of(Ok(None), s));
    alts_before(alloc, first, last)
}

// The loop that takes notes as long as there are any.
fn notes_taken(alloc: Global, x: &AbortReporter, s: Span) -> Result<Stmt, Memory>
    ensures { IfOk result (λ made. plain_stmt made ≡ notes_taken (told_of x.now) s) }
{
    let wait = wait_of(note_alternatives(alloc, x, s), Ok(None), s);
    loop_of(None, Ok(None), one_stmt(alloc, wait), s)
}

// ---- the recorder's tables

// The names of the tables of calls.
fn table_words(alloc: Global, x: &AbortReporter, s: Span) -> Result<Vec<Word>, Memory>
    ensures { IfOk result (λ made. made.items ≡ word_at s (told_of x.now).teller.added.met ∷ word_at s (told_of x.now).acceptors ∷ []) }
{
    let mut words = Vec::new(alloc);
    words.push(word(x.reporter.tables.added.met, s))?;
    words.push(word(x.acceptors, s))?;
    Ok(words)
}

// The declaration of the tables of calls, which hold 0.
fn calls_declared(alloc: Global, x: &AbortReporter, s: Span) -> Result<Decl, Memory>
    ensures { IfOk result (λ made. plain_decl made ≡ calls_declared (told_of x.now) s) }
{
    let range = Drange::Given(Bounds {
        first: integer_expr(0, s),
        last: integer_expr(last_task(x.reporter.numbers.numbers()), s),
    });
    let part = Subind {
        mark: word(NameId::INTEGER, s),
        bounds: None,
    };
    let shape = array_shape_of(Ok(range), Ok(part));
    let init = there_init(others_of(Ok(integer_expr(0, s)), s));
    object_of(table_words(alloc, x, s), false, shape, init, s)
}

// The declarations of the tables go behind others.
fn put_tables(alloc: Global, x: &AbortReporter, s: Span, out: &mut Vec<Decl>) -> Result<(), Memory>
    ensures { OnOk result (map plain_decl out.new.items ≡ map plain_decl out.old.items ++ flags_declared (told_of x.now).teller.added s (told_of x.now).teller.added.gone ∷ calls_declared (told_of x.now) s ∷ []) }
{
    let n = &x.reporter.tables.added;
    push_decl(out, flags_declared(alloc, n, n.gone, s))?;
    push_decl(out, calls_declared(alloc, x, s))
}

// The declarations of the tables.
fn tables(alloc: Global, x: &AbortReporter, s: Span) -> Result<Vec<Decl>, Memory>
    ensures { IfOk result (λ made. map plain_decl made.items ≡ flags_declared (told_of x.now).teller.added s (told_of x.now).teller.added.gone ∷ calls_declared (told_of x.now) s ∷ []) }
{
    let mut made = Vec::new(alloc);
    let done = put_tables(alloc, x, s, &mut made);
    keep_decls(made, done)
}

/// The recorder's body, which writes this header and then takes notes.
pub(crate) fn recorder_body(
    alloc: Global,
    x: &AbortReporter,
    header: &str,
    s: Span,
) -> Result<Decl, Memory>
    ensures { IfOk result (λ made. plain_decl made ≡ recorder_body (told_of x.now) s header.now) }
{
    let notes = one_stmt(alloc, notes_taken(alloc, x, s));
    let stmts = before(alloc, header_put(alloc, header, s), notes);
    let its = body_of(stmts, Ok(Vec::new(alloc)));
    let recorder = word(x.reporter.tables.added.recorder, s);
    task_body_of(recorder, tables(alloc, x, s), its, s)
}
