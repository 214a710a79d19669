// Tasks and bodies.

ghost use Rattle.std.specs.Prelude.{◌≡◌, OnOk, map};
ghost use Rattle.ada_tree.specs.PlainDecl.{plain_decl, decls_of};
ghost use Rattle.replay_asking.specs.Looked.{voice_of};
ghost use Rattle.ada_tree.specs.PlainStmt.{plain_body};
ghost use Rattle.syn_event.specs.DeclaredTasks.{decl_list};
ghost use Rattle.replay_model.specs.ReplayTree.{behind_own};
ghost use Rattle.replay_statements.specs.rules.Replayed.{body_image};
ghost use Rattle.replay_declarations.specs.ids.Arranged.{decl_image, first_running, permit_declared, voice_at};
ghost use Rattle.replay_declarations.specs.units.inner.Steps.{body_name, with_objects, with_body, with_entries};
ghost use Rattle.replay_declarations.specs.units.inner.UnderUnits.{by_units};

use crate::units::permits::put_permit;
use crate::units::runners::first_running;
use crate::units::tasks::add_entries;
use ada_tree::{Body, Decl, DeclKind, Memory, Names, Span, Word};
use replay_asking::Speaker;
use replay_statements::rules::replay_body;
use std::alloc::Global;
use task_links::TaskNames;

// The objects of a unit get the variables of its permit.
fn put_objects(
    alloc: Global,
    x: &Speaker,
    names: &Names,
    s: Span,
    objects: &mut Vec<Decl>,
) -> Result<(), Memory>
    ensures { OnOk result (decls_of (map plain_decl objects.new.items) ≡ decls_of (behind_own names.now (permit_declared (voice_of x.now).added s) (decl_list (decls_of (map plain_decl objects.old.items))))) }
{
    put_permit(alloc, names, &x.tables.added, s, objects)
}

// The body of a unit of a name becomes that of the replay text.
fn replay_unit(
    alloc: Global,
    x: &Speaker,
    runners: &TaskNames,
    name: Word,
    body: &mut Body,
) -> Result<(), Memory>
    requires { runners.now ≡ by_units x.now.numbers.now }
    ensures { OnOk result (plain_body body.new ≡ body_image (voice_at (voice_of x.now) (first_running (voice_of x.now).numbers name.name)) name.span (plain_body body.old)) }
{
    let speaker = Speaker {
        tables: x.tables,
        numbers: x.numbers,
        task: first_running(runners, name.name),
    };
    replay_body(alloc, speaker, body, name.span)
}

// The name of a body that is declared.
fn body_name(decl: &Decl) -> Option<Word>
    ensures { result ≡ body_name (plain_decl decl.now) }
{
    match &decl.kind {
        DeclKind::TaskBody { name, .. } => Some(*name),
        _ => None,
    }
}

// A body that is declared gets the variables of its permit.
fn put_body_objects(
    alloc: Global,
    x: &Speaker,
    names: &Names,
    s: Span,
    decl: &mut Decl,
) -> Result<(), Memory>
    ensures { OnOk result (plain_decl decl.new ≡ with_objects (voice_of x.now) names.now s (plain_decl decl.old)) }
{
    match &mut decl.kind {
        DeclKind::TaskBody { objects, .. } => put_objects(alloc, x, names, s, objects),
        _ => Ok(()),
    }
}

// A body of a name that is declared becomes that of the replay text.
fn put_body(
    alloc: Global,
    x: &Speaker,
    runners: &TaskNames,
    name: Word,
    decl: &mut Decl,
) -> Result<(), Memory>
    requires { runners.now ≡ by_units x.now.numbers.now }
    ensures { OnOk result (plain_decl decl.new ≡ with_body (voice_of x.now) name (plain_decl decl.old)) }
{
    match &mut decl.kind {
        DeclKind::TaskBody { body, .. } => replay_unit(alloc, x, runners, name, body),
        _ => Ok(()),
    }
}

// A task that is declared gets its further entries.
fn put_entries(alloc: Global, x: &Speaker, decl: &mut Decl) -> Result<(), Memory>
    ensures { OnOk result (plain_decl decl.new ≡ with_entries (voice_of x.now) (plain_decl decl.old)) }
{
    match &mut decl.kind {
        DeclKind::Task(unit) => add_entries(alloc, x, unit),
        _ => Ok(()),
    }
}

/// A declaration of the normal form becomes that of the replay text.
pub(crate) fn replay_decl(
    alloc: Global,
    x: &Speaker,
    names: &Names,
    runners: &TaskNames,
    decl: &mut Decl,
) -> Result<(), Memory>
    requires { runners.now ≡ by_units x.now.numbers.now }
    ensures { OnOk result (plain_decl decl.new ≡ decl_image (voice_of x.now) names.now (plain_decl decl.old)) }
{
    match body_name(decl) {
        Some(name) => {
            put_body_objects(alloc, x, names, name.span, decl)?;
            put_body(alloc, x, runners, name, decl)
        }
        None => put_entries(alloc, x, decl),
    }
}

/// Declarations of the normal form become those of the replay text.
pub(crate) fn replay_all(
    alloc: Global,
    x: &Speaker,
    names: &Names,
    runners: &TaskNames,
    decls: &mut Vec<Decl>,
) -> Result<(), Memory>
    requires { runners.now ≡ by_units x.now.numbers.now }
    ensures { OnOk result (map plain_decl decls.new.items ≡ map (decl_image (voice_of x.now) names.now) (map plain_decl decls.old.items)) }
{
    for decl in decls.iter_mut() {
        replay_decl(alloc, x, names, runners, decl)?;
    }
    Ok(())
}
