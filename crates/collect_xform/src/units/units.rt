// Tasks and bodies.

ghost use Rattle.std.specs.Prelude.{◌≡◌, OnOk, map};
ghost use Rattle.ada_tree.specs.PlainDecl.{plain_decl, decls_of};
ghost use Rattle.ada_tree.specs.PlainStmt.{plain_body};
ghost use Rattle.syn_event.specs.DeclaredTasks.{decl_list};
ghost use Rattle.collect_model.specs.Teller.{task_of, teller_at};
ghost use Rattle.collect_model.specs.CollectStmts.{task_body};
ghost use Rattle.collect_model.specs.CollectTree.{behind_own, collect_decl, unit_declared};
ghost use Rattle.collect_statements.specs.Looked.{teller_of};
ghost use Rattle.collect_xform.specs.units.Steps.{body_name, with_objects, with_body, with_entries};

use crate::units::tasks::tell_task;
use crate::units::variables::{put_behind_own, put_variables};
use ada_tree::{Body, Decl, DeclKind, Memory, Names, Span, Word};
use collect_statements::{Reporter, collect_task, task_of};
use std::alloc::Global;

// The objects of a unit get its further variables.
fn put_objects(
    alloc: Global,
    x: &Reporter,
    names: &Names,
    s: Span,
    objects: &mut Vec<Decl>,
) -> Result<(), Memory>
    ensures { OnOk result (decls_of (map plain_decl objects.new.items) ≡ decls_of (behind_own names.now (unit_declared (teller_of x.now).added s) (decl_list (decls_of (map plain_decl objects.old.items))))) }
{
    let mut more = Vec::new(alloc);
    put_variables(alloc, &x.tables.added, s, &mut more)?;
    put_behind_own(names, &mut more, objects)
}

// The body of a task of a name becomes that of the collecting text.
fn tell_body(alloc: Global, x: &Reporter, name: Word, body: &mut Body) -> Result<(), Memory>
    ensures { OnOk result (plain_body body.new ≡ task_body (teller_at (teller_of x.now) (task_of (teller_of x.now).numbers name.name)) name.span (plain_body body.old)) }
{
    let reporter = Reporter {
        tables: x.tables,
        numbers: x.numbers,
        task: task_of(x.numbers, name.name),
    };
    collect_task(alloc, reporter, body, name.span)
}

// The name of a body that is declared.
fn body_name(decl: &Decl) -> Option<Word>
    ensures { result ≡ body_name (plain_decl decl.now) }
{
    match &decl.kind {
        DeclKind::TaskBody { name, .. } => Some(*name),
        _ => None,
    }
}

// A body that is declared gets its further variables.
fn put_body_objects(
    alloc: Global,
    x: &Reporter,
    names: &Names,
    s: Span,
    decl: &mut Decl,
) -> Result<(), Memory>
    ensures { OnOk result (plain_decl decl.new ≡ with_objects (teller_of x.now) names.now s (plain_decl decl.old)) }
{
    match &mut decl.kind {
        DeclKind::TaskBody { objects, .. } => put_objects(alloc, x, names, s, objects),
        _ => Ok(()),
    }
}

// A body of a name that is declared becomes that of the collecting text.
fn put_body(alloc: Global, x: &Reporter, name: Word, decl: &mut Decl) -> Result<(), Memory>
    ensures { OnOk result (plain_decl decl.new ≡ with_body (teller_of x.now) name (plain_decl decl.old)) }
{
    match &mut decl.kind {
        DeclKind::TaskBody { body, .. } => tell_body(alloc, x, name, body),
        _ => Ok(()),
    }
}

// A task that is declared becomes that of the collecting text.
fn put_entries(alloc: Global, x: &Reporter, decl: &mut Decl) -> Result<(), Memory>
    ensures { OnOk result (plain_decl decl.new ≡ with_entries (teller_of x.now) (plain_decl decl.old)) }
{
    match &mut decl.kind {
        DeclKind::Task(unit) => tell_task(alloc, &x.tables.added, unit),
        _ => Ok(()),
    }
}

// A declaration of the normal form becomes that of the collecting text.
fn collect_decl(alloc: Global, x: &Reporter, names: &Names, decl: &mut Decl) -> Result<(), Memory>
    ensures { OnOk result (plain_decl decl.new ≡ collect_decl (teller_of x.now) names.now (plain_decl decl.old)) }
{
    match body_name(decl) {
        Some(name) => {
            put_body_objects(alloc, x, names, name.span, decl)?;
            put_body(alloc, x, name, decl)
        }
        None => put_entries(alloc, x, decl),
    }
}

/// Declarations of the normal form become those of the collecting text.
pub(crate) fn collect_all(
    alloc: Global,
    x: &Reporter,
    names: &Names,
    decls: &mut Vec<Decl>,
) -> Result<(), Memory>
    ensures { OnOk result (map plain_decl decls.new.items ≡ map (collect_decl (teller_of x.now) names.now) (map plain_decl decls.old.items)) }
{
    for decl in decls.iter_mut() {
        collect_decl(alloc, x, names, decl)?;
    }
    Ok(())
}
