// Tasks and bodies.

ghost use Rattle.std.specs.Prelude.{◌≡◌, ◌++◌, OnOk, map};
ghost use Rattle.ada_tree.specs.PlainStmt.{plain_body};
ghost use Rattle.ada_tree.specs.PlainDecl.{plain_decl, decls_of};
ghost use Rattle.syn_event.specs.DeclaredTasks.{decl_list};
ghost use Rattle.collect_model.specs.Teller.{task_of};
ghost use Rattle.collect_model.specs.CollectTree.{behind_own, unit_declared};
ghost use Rattle.collect_xform.specs.units.Steps.{body_name, with_entries};
ghost use Rattle.collect_model.specs.aborts.AbortTeller.{told_at};
ghost use Rattle.collect_model.specs.aborts.AbortStmts.{task_body};
ghost use Rattle.collect_model.specs.aborts.AbortTree.{abort_decl, places_declared};
ghost use Rattle.collect_abort.specs.Looked.{told_of};
ghost use Rattle.collect_abort.specs.Steps.{with_body, with_objects};

use crate::bodies::abort_task;
use crate::counting::places_in;
use crate::teller::{AbortReporter, reporter_at};
use crate::units::variables::put_places;
use ada_tree::{Body, Decl, DeclKind, Memory, Names, Span, Word};
use collect_statements::task_of;
use collect_xform::units::{put_behind_own, put_variables, tell_task};
use std::alloc::Global;

// What a unit declares more goes behind others, where it has so many places.
fn put_more(
    alloc: Global,
    x: &AbortReporter,
    count: u32,
    s: Span,
    out: &mut Vec<Decl>,
) -> Result<(), Memory>
    ensures { OnOk result (map plain_decl out.new.items ≡ map plain_decl out.old.items ++ (unit_declared (told_of x.now).teller.added s ++ places_declared (told_of x.now) s count)) }
{
    put_variables(alloc, &x.reporter.tables.added, s, out)?;
    put_places(alloc, x, count, s, out)
}

// The objects of a unit get its further variables.
fn put_objects(
    alloc: Global,
    x: &AbortReporter,
    names: &Names,
    count: u32,
    s: Span,
    objects: &mut Vec<Decl>,
) -> Result<(), Memory>
    ensures { OnOk result (decls_of (map plain_decl objects.new.items) ≡ decls_of (behind_own names.now (unit_declared (told_of x.now).teller.added s ++ places_declared (told_of x.now) s count) (decl_list (decls_of (map plain_decl objects.old.items))))) }
{
    let mut more = Vec::new(alloc);
    put_more(alloc, x, count, s, &mut more)?;
    put_behind_own(names, &mut more, objects)
}

// The body of a task of a name becomes that of the collecting text.
fn tell_body(alloc: Global, x: &AbortReporter, name: Word, body: &mut Body) -> Result<(), Memory>
    ensures { OnOk result (plain_body body.new ≡ task_body (told_at (told_of x.now) (task_of (told_of x.now).teller.numbers name.name)) name.span (plain_body body.old)) }
{
    let task = task_of(x.reporter.numbers, name.name);
    abort_task(alloc, reporter_at(x, task), body, name.span)
}

// The name of a body that is declared.
fn body_name(decl: &Decl) -> Option<Word>
    ensures { result ≡ body_name (plain_decl decl.now) }
{
    match &decl.kind {
        DeclKind::TaskBody { name, .. } => Some(*name),
        _ => None,
    }
}

// A body that is declared gets its further variables.
fn put_body_objects(
    alloc: Global,
    x: &AbortReporter,
    names: &Names,
    s: Span,
    decl: &mut Decl,
) -> Result<(), Memory>
    ensures { OnOk result (plain_decl decl.new ≡ with_objects (told_of x.now) names.now s (plain_decl decl.old)) }
{
    match &mut decl.kind {
        DeclKind::TaskBody { objects, body, .. } => {
            let count = places_in(alloc, body)?;
            put_objects(alloc, x, names, count, s, objects)
        }
        _ => Ok(()),
    }
}

// A body of a name that is declared becomes that of the collecting text.
fn put_body(alloc: Global, x: &AbortReporter, name: Word, decl: &mut Decl) -> Result<(), Memory>
    ensures { OnOk result (plain_decl decl.new ≡ with_body (told_of x.now) name (plain_decl decl.old)) }
{
    match &mut decl.kind {
        DeclKind::TaskBody { body, .. } => tell_body(alloc, x, name, body),
        _ => Ok(()),
    }
}

// A task that is declared becomes that of the collecting text.
fn put_entries(alloc: Global, x: &AbortReporter, decl: &mut Decl) -> Result<(), Memory>
    ensures { OnOk result (plain_decl decl.new ≡ with_entries (told_of x.now).teller (plain_decl decl.old)) }
{
    match &mut decl.kind {
        DeclKind::Task(unit) => tell_task(alloc, &x.reporter.tables.added, unit),
        _ => Ok(()),
    }
}

// A declaration of the normal form becomes that of the collecting text.
fn abort_decl(
    alloc: Global,
    x: &AbortReporter,
    names: &Names,
    decl: &mut Decl,
) -> Result<(), Memory>
    ensures { OnOk result (plain_decl decl.new ≡ abort_decl (told_of x.now) names.now (plain_decl decl.old)) }
{
    match body_name(decl) {
        Some(name) => {
            put_body_objects(alloc, x, names, name.span, decl)?;
            put_body(alloc, x, name, decl)
        }
        None => put_entries(alloc, x, decl),
    }
}

/// Declarations of the normal form become those of the collecting text.
pub(crate) fn abort_all(
    alloc: Global,
    x: &AbortReporter,
    names: &Names,
    decls: &mut Vec<Decl>,
) -> Result<(), Memory>
    ensures { OnOk result (map plain_decl decls.new.items ≡ map (abort_decl (told_of x.now) names.now) (map plain_decl decls.old.items)) }
{
    for decl in decls.iter_mut() {
        abort_decl(alloc, x, names, decl)?;
    }
    Ok(())
}
