// The names that are added.

ghost use Rattle.std.specs.Prelude.{◌≡◌, ◌∷◌, [], fold, map, flat_map, OnOk};
ghost use Rattle.ada_tree.specs.NameList.{interned};
ghost use Rattle.ada_tree.specs.PlainDecl.{plain_decl, plain_task};
ghost use Rattle.syn_event.specs.DeclaredTasks.{tasks_in};
ghost use Rattle.replay_model.specs.Names.{double_texts};
ghost use Rattle.replay_asking.specs.names.Added.{with_added};

use crate::names::doubles::double_of;
use ada_tree::{Decl, DeclKind, Memory, Names, TaskUnit};
use std::alloc::Global;

// Texts are interned, in order.
fn intern_all(names: &mut Names, texts: &[&str]) -> Result<(), Memory>
    ensures { OnOk result (names.new ≡ fold interned names.old (map (λ t. t.now) texts.now)) }
{
    for text in texts {
        names.intern(text)?;
    }
    Ok(())
}

// The names that every replay text adds.
fn intern_added(names: &mut Names) -> Result<(), Memory>
    ensures { OnOk result (names.new ≡ with_added names.old) }
{
    intern_all(
        names,
        &[
            "DED_K",
            "DED_A",
            "DED_I",
            "DED_CONTROL",
            "GO",
            "DONE",
            "HOLD",
            "DED_IDLE",
            "STOP",
            "NEVER",
            "DED_NEVER",
            "DED_JOIN",
            "DED_OPS",
            "DED_TS",
            "DED_KS",
            "DED_AS",
            "DED_IS",
            "DED_N",
        ],
    )
}

// The doubles of the entries of a task.
fn intern_unit(
    alloc: Global,
    originals: &Names,
    unit: &TaskUnit,
    names: &mut Names,
) -> Result<(), Memory>
    ensures { OnOk result (names.new ≡ fold interned names.old (double_texts originals.now (plain_task unit.now))) }
{
    for entry in &unit.entries {
        let text = double_of(alloc, originals, entry.name.name)?;
        names.intern(text.as_str())?;
    }
    Ok(())
}

// The doubles of a declaration's entries.
fn intern_decl(
    alloc: Global,
    originals: &Names,
    decl: &Decl,
    names: &mut Names,
) -> Result<(), Memory>
    ensures { OnOk result (names.new ≡ fold interned names.old (flat_map (double_texts originals.now) (tasks_in (plain_decl decl.now ∷ [])))) }
{
    match &decl.kind {
        DeclKind::Task(unit) => intern_unit(alloc, originals, unit, names),
        _ => Ok(()),
    }
}

// The doubles of the entries of declared tasks.
fn intern_doubles(
    alloc: Global,
    originals: &Names,
    decls: &[Decl],
    names: &mut Names,
) -> Result<(), Memory>
    ensures { OnOk result (names.new ≡ fold interned names.old (flat_map (double_texts originals.now) (tasks_in (map plain_decl decls.now)))) }
{
    for decl in decls {
        intern_decl(alloc, originals, decl, names)?;
    }
    Ok(())
}

/// The names that a replay text of these declarations adds are interned: those of every text, and those of the doubles of the tasks' entries, task by task. The texts of the entries' names stand among `originals`.
pub fn add_names(
    alloc: Global,
    originals: &Names,
    decls: &[Decl],
    names: &mut Names,
) -> Result<(), Memory>
    ensures { OnOk result (names.new ≡ fold interned (with_added names.old) (flat_map (double_texts originals.now) (tasks_in (map plain_decl decls.now)))) }
{
    intern_added(names)?;
    intern_doubles(alloc, originals, decls, names)
}
