// All declarations, in their order.

ghost use Rattle.std.specs.Prelude.{◌≡◌, ◌∷◌, ◌++◌, [], OnOk, map};
ghost use Rattle.ada_tree.specs.PlainDecl.{plain_decl};
ghost use Rattle.ada_tree.specs.PlainProgram.{plain_program};
ghost use Rattle.replay_model.specs.ReplayTree.{last_task};
ghost use Rattle.collect_model.specs.CollectTree.{main_declared};
ghost use Rattle.collect_model.specs.aborts.AbortTree.{abort_decl, abort_decls, objects_told, places_declared, recorder_body_told, units_told};
ghost use Rattle.collect_abort.specs.Looked.{told_of};

use crate::counting::places_in;
use crate::recorder::recorder_body;
use crate::teller::AbortReporter;
use crate::units::bodies::abort_all;
use crate::units::variables::put_places;
use ada_tree::{Decl, Memory, Program, Span};
use collect_xform::header_text;
use collect_xform::units::{has_int_io, put_behind_own, put_main, put_recorder};
use normal_parts::{last_task, sort_decls};
use replay_asking::making::move_decls;
use std::alloc::Global;
use tree_rewriting::making::push_decl;

// What main declares more goes behind others, where it has so many places.
fn put_more(
    alloc: Global,
    x: &AbortReporter,
    instance: bool,
    count: u32,
    s: Span,
    out: &mut Vec<Decl>,
) -> Result<(), Memory>
    ensures { OnOk result (map plain_decl out.new.items ≡ map plain_decl out.old.items ++ (main_declared (told_of x.now).teller.added s instance (last_task (told_of x.now).teller.numbers) ++ places_declared (told_of x.now) s count)) }
{
    let last = last_task(x.reporter.numbers.numbers());
    put_main(alloc, &x.reporter.tables.added, s, instance, last, out)?;
    put_places(alloc, x, count, s, out)
}

// The objects of main, where the text is that of the normal form `q`, get what main declares more.
fn put_main_objects(
    alloc: Global,
    x: &AbortReporter,
    q: &Program,
    objects: &mut Vec<Decl>,
) -> Result<(), Memory>
    ensures { OnOk result (map plain_decl objects.new.items ≡ objects_told (told_of x.now) (plain_program q.now) (map plain_decl objects.old.items)) }
{
    let instance = has_int_io(objects);
    let count = places_in(alloc, &q.body)?;
    let mut more = Vec::new(alloc);
    put_more(alloc, x, instance, count, q.name.span, &mut more)?;
    put_behind_own(&q.names, &mut more, objects)
}

// Declarations are rewritten, and go behind others.
fn put_rewritten(
    alloc: Global,
    x: &AbortReporter,
    q: &Program,
    decls: &mut Vec<Decl>,
    out: &mut Vec<Decl>,
) -> Result<(), Memory>
    ensures { OnOk result (map plain_decl out.new.items ≡ map plain_decl out.old.items ++ map (abort_decl (told_of x.now) (plain_program q.now).names) (map plain_decl decls.old.items)) }
{
    abort_all(alloc, x, &q.names, decls)?;
    move_decls(out, decls)
}

// The recorder's body stands behind others.
fn put_recorder_body(
    alloc: Global,
    x: &AbortReporter,
    q: &Program,
    out: &mut Vec<Decl>,
) -> Result<(), Memory>
    ensures { OnOk result (map plain_decl out.new.items ≡ map plain_decl out.old.items ++ recorder_body_told (told_of x.now) (plain_program q.now) ∷ []) }
{
    let header = header_text(alloc, &q.names, x.reporter.numbers.numbers())?;
    push_decl(out, recorder_body(alloc, x, header.as_str(), q.name.span))
}

// The tasks and bodies go behind the objects, with the recorder and its body.
fn put_units(
    alloc: Global,
    x: &AbortReporter,
    q: &Program,
    objects: &mut Vec<Decl>,
    tasks: &mut Vec<Decl>,
    bodies: &mut Vec<Decl>,
) -> Result<(), Memory>
    ensures { OnOk result (map plain_decl objects.new.items ≡ units_told (told_of x.now) (plain_program q.now) (map plain_decl objects.old.items) (map plain_decl tasks.old.items) (map plain_decl bodies.old.items)) }
{
    put_main_objects(alloc, x, q, objects)?;
    put_rewritten(alloc, x, q, tasks, objects)?;
    put_recorder(alloc, &x.reporter, q, objects)?;
    put_rewritten(alloc, x, q, bodies, objects)?;
    put_recorder_body(alloc, x, q, objects)
}

// The declarations of the normal form are sorted, and become those of the collecting text among the objects.
fn put_decls(
    alloc: Global,
    x: &AbortReporter,
    q: &Program,
    decls: &mut Vec<Decl>,
    objects: &mut Vec<Decl>,
) -> Result<(), Memory>
    requires { objects.old.items ≡ [] }
    ensures { OnOk result (map plain_decl objects.new.items ≡ abort_decls (told_of x.now) (plain_program q.now) (map plain_decl decls.old.items)) }
{
    let mut tasks = Vec::new(alloc);
    let mut bodies = Vec::new(alloc);
    sort_decls(decls, objects, &mut tasks, &mut bodies)?;
    put_units(alloc, x, q, objects, &mut tasks, &mut bodies)
}

/// The declarations of the normal form `q` become those of the collecting text, by what main is told. After want of memory nothing is said of them.
pub(crate) fn abort_decls(
    alloc: Global,
    x: &AbortReporter,
    q: &Program,
    decls: &mut Vec<Decl>,
) -> Result<(), Memory>
    ensures { OnOk result (map plain_decl decls.new.items ≡ abort_decls (told_of x.now) (plain_program q.now) (map plain_decl decls.old.items)) }
{
    let mut objects = Vec::new(alloc);
    put_decls(alloc, x, q, decls, &mut objects)?;
    *decls = objects;
    Ok(())
}
