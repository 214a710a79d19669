// The first declarations: all but tasks, task types, objects of task types and bodies.

ghost use Rattle.std.specs.Prelude.{◌≡◌, ◌++◌, ◌∷◌, [], OnOk, is_some, map};
ghost use Rattle.ada_tree.specs.PlainDecl.{decls_of, plain_decl, plain_shape};
ghost use Rattle.syn_event.specs.DeclaredTasks.{decl_list};
ghost use Rattle.scoped_names.specs.Meaning.{meaning_in};
ghost use Rattle.normal_model.specs.NormalTree.{first_decls, mark_of};
ghost use Rattle.normal_form.specs.unit_declarations.inner.First.{first_of, known_behind, with_name};

use ada_tree::{Decl, DeclKind, Memory, NameId, Shape, TaskUnit};
use ada_tree_copy::TreeCopy;
use scoped_names::ScopedNames;
use std::alloc::Global;
use tree_rewriting::making::push_decl;

// The mark of an object's shape, or of its components.
fn mark_of(shape: &Shape) -> NameId
    ensures { result ≡ mark_of (plain_shape shape.now) }
{
    match shape {
        Shape::Plain(subind) => subind.mark.name,
        Shape::ConstrainedArray { part, .. } => part.mark.name,
    }
}

// Whether an object is of a task type.
fn is_task(known: &ScopedNames<bool>, shape: &Shape) -> bool
    ensures { result ≡ is_some (meaning_in known.now (mark_of (plain_shape shape.now)).0) }
{
    known.meaning(mark_of(shape).0).is_some()
}

// The name of a task type more, where it is one.
fn know_type(known: &mut ScopedNames<bool>, unit: &TaskUnit) -> Result<(), Memory>
    ensures { OnOk result (known.new ≡ with_name known.old unit.now.of_kind unit.now.name.name.0) }
{
    if unit.of_kind {
        known.declare(unit.name.name.0, true)?;
    }
    Ok(())
}

// The names of task types behind a declaration.
fn know_decl(known: &mut ScopedNames<bool>, decl: &Decl) -> Result<(), Memory>
    ensures { OnOk result (known.new ≡ known_behind known.old (plain_decl decl.now)) }
{
    match &decl.kind {
        DeclKind::Task(unit) => know_type(known, unit),
        _ => Ok(()),
    }
}

// A copy of a declaration goes behind others.
fn push_copy(alloc: Global, decl: &Decl, out: &mut Vec<Decl>) -> Result<(), Memory>
    ensures { OnOk result (map plain_decl out.new.items ≡ map plain_decl out.old.items ++ plain_decl decl.now ∷ []) }
{
    push_decl(out, decl.copy(alloc))
}

// A declaration goes behind others, where it is one of the first.
fn push_first(
    alloc: Global,
    known: &ScopedNames<bool>,
    decl: &Decl,
    out: &mut Vec<Decl>,
) -> Result<(), Memory>
    ensures { OnOk result (map plain_decl out.new.items ≡ map plain_decl out.old.items ++ first_of known.now (plain_decl decl.now)) }
{
    match &decl.kind {
        DeclKind::Task(_) => Ok(()),
        DeclKind::TaskBody { .. } => Ok(()),
        DeclKind::Object { shape, .. } => {
            if is_task(known, shape) {
                Ok(())
            } else {
                push_copy(alloc, decl, out)
            }
        }
        _ => push_copy(alloc, decl, out),
    }
}

/// The first declarations of a normal form go behind others: all but tasks, task types, objects of task types and bodies.
pub fn push_firsts(alloc: Global, decls: &[Decl], out: &mut Vec<Decl>) -> Result<(), Memory>
    ensures { OnOk result (map plain_decl out.new.items ≡ map plain_decl out.old.items ++ decl_list (first_decls [] (decls_of (map plain_decl decls.now)))) }
{
    let mut known = ScopedNames::new(alloc);
    for decl in decls {
        push_first(alloc, &known, decl, out)?;
        know_decl(&mut known, decl)?;
    }
    Ok(())
}
