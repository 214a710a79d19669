// All declarations, in their order.

ghost use Rattle.std.specs.Prelude.{◌≡◌, ◌∷◌, ◌++◌, [], OnOk, map};
ghost use Rattle.ada_tree.specs.PlainDecl.{plain_decl};
ghost use Rattle.ada_tree.specs.PlainProgram.{plain_program};
ghost use Rattle.collect_model.specs.CollectTree.{collect_decl, collect_decls, recorder_told, recorder_body_told, units_told};
ghost use Rattle.collect_statements.specs.Looked.{teller_of};

use crate::recorder::{header_text, recorder_body, recorder_declared};
use crate::units::main_objects::put_main_objects;
use crate::units::units::collect_all;
use ada_tree::{Decl, Memory, Program};
use collect_statements::Reporter;
use normal_parts::sort_decls;
use replay_asking::making::move_decls;
use std::alloc::Global;
use tree_rewriting::making::push_decl;

// Declarations are rewritten, and go behind others.
fn put_rewritten(
    alloc: Global,
    x: &Reporter,
    q: &Program,
    decls: &mut Vec<Decl>,
    out: &mut Vec<Decl>,
) -> Result<(), Memory>
    ensures { OnOk result (map plain_decl out.new.items ≡ map plain_decl out.old.items ++ map (collect_decl (teller_of x.now) (plain_program q.now).names) (map plain_decl decls.old.items)) }
{
    collect_all(alloc, x, &q.names, decls)?;
    move_decls(out, decls)
}

/// The recorder is declared behind others.
pub fn put_recorder(
    alloc: Global,
    x: &Reporter,
    q: &Program,
    out: &mut Vec<Decl>,
) -> Result<(), Memory>
    ensures { OnOk result (map plain_decl out.new.items ≡ map plain_decl out.old.items ++ recorder_told (teller_of x.now) (plain_program q.now) ∷ []) }
{
    push_decl(out, recorder_declared(alloc, &x.tables.added, q.name.span))
}

// The recorder's body stands behind others.
fn put_recorder_body(
    alloc: Global,
    x: &Reporter,
    q: &Program,
    out: &mut Vec<Decl>,
) -> Result<(), Memory>
    ensures { OnOk result (map plain_decl out.new.items ≡ map plain_decl out.old.items ++ recorder_body_told (teller_of x.now) (plain_program q.now) ∷ []) }
{
    let header = header_text(alloc, &q.names, x.numbers.numbers())?;
    push_decl(
        out,
        recorder_body(alloc, &x.tables.added, header.as_str(), q.name.span),
    )
}

// The tasks and bodies go behind the objects, with the recorder and its body.
fn put_units(
    alloc: Global,
    x: &Reporter,
    q: &Program,
    objects: &mut Vec<Decl>,
    tasks: &mut Vec<Decl>,
    bodies: &mut Vec<Decl>,
) -> Result<(), Memory>
    ensures { OnOk result (map plain_decl objects.new.items ≡ units_told (teller_of x.now) (plain_program q.now) (map plain_decl objects.old.items) (map plain_decl tasks.old.items) (map plain_decl bodies.old.items)) }
{
    put_main_objects(alloc, x, q, objects)?;
    put_rewritten(alloc, x, q, tasks, objects)?;
    put_recorder(alloc, x, q, objects)?;
    put_rewritten(alloc, x, q, bodies, objects)?;
    put_recorder_body(alloc, x, q, objects)
}

// The declarations of the normal form are sorted, and become those of the collecting text among the objects.
fn put_decls(
    alloc: Global,
    x: &Reporter,
    q: &Program,
    decls: &mut Vec<Decl>,
    objects: &mut Vec<Decl>,
) -> Result<(), Memory>
    requires { objects.old.items ≡ [] }
    ensures { OnOk result (map plain_decl objects.new.items ≡ collect_decls (teller_of x.now) (plain_program q.now) (map plain_decl decls.old.items)) }
{
    let mut tasks = Vec::new(alloc);
    let mut bodies = Vec::new(alloc);
    sort_decls(decls, objects, &mut tasks, &mut bodies)?;
    put_units(alloc, x, q, objects, &mut tasks, &mut bodies)
}

/// The declarations of the normal form `q` become those of the collecting text, by what main is told. After want of memory nothing is said of them.
pub(crate) fn collect_decls(
    alloc: Global,
    x: &Reporter,
    q: &Program,
    decls: &mut Vec<Decl>,
) -> Result<(), Memory>
    ensures { OnOk result (map plain_decl decls.new.items ≡ collect_decls (teller_of x.now) (plain_program q.now) (map plain_decl decls.old.items)) }
{
    let mut objects = Vec::new(alloc);
    put_decls(alloc, x, q, decls, &mut objects)?;
    *decls = objects;
    Ok(())
}
