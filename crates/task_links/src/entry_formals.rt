// The formals of all entries, by the names of their tasks or task types and their own.

ghost use Rattle.std.specs.Prelude.{◌≡◌, ◌==◌, ◌++◌, ◌∷◌, [], ℕ, List, Some, None, map, option_copied, if◌then◌else◌, IfOk, OnOk};
ghost use Rattle.ada_static_rules.specs.StaticValue.{first_of_two};
ghost use Rattle.ada_tree.specs.PlainStmt.{plain_formal};
ghost use Rattle.ada_tree.specs.PlainDecl.{PTask, decls_of, plain_decl, plain_entry, plain_task};
ghost use Rattle.syn_event.specs.DeclaredTasks.{decl_list, tasks_in};
ghost use Rattle.task_model.specs.Setting.{parameters_of};
ghost use Rattle.task_links.specs.inner.Keys.{entry_eq};
ghost use Rattle.task_links.specs.inner.Made.{KeepsUnits, formals_among, formals_at, formals_declared, kept_for_entry, kept_for_task};

use crate::formals::parameters_of;
use crate::keeping::keep_first;
use crate::type_names::TypeNames;
use ada_tree::{Decl, DeclKind, EntryDecl, Formal, Memory, NameId, TaskUnit};
use std::alloc::Global;
use std::collections::HashMap;
use syn_event::{Numbers, TaskInfo};
use task_model::FormalParameter;

// Keeps the formals of an entry for these names, unless some are kept for them.
fn keep_formals(
    kept: &mut HashMap<(u32, u32), Vec<FormalParameter>>,
    alloc: Global,
    names: &TypeNames,
    key: (u32, u32),
    formals: &[Formal],
) -> Result<(), Memory>
    ensures { OnOk result ((q : ℕ × ℕ) → formals_at kept.new q ≡ first_of_two (formals_at kept.old q) (if entry_eq key q then Some (parameters_of names.now (map plain_formal formals.now)) else None)) }
{
    let known = kept.contains_key(&key);
    if known {
        return Ok(());
    }
    let parameters = parameters_of(alloc, names, formals)?;
    match kept.insert(key, parameters) {
        Ok(_) => Ok(()),
        Err(_) => Err(Memory),
    }
}

// Keeps the formals of the entries of a task or task type of this name.
fn keep_entries(
    kept: &mut HashMap<(u32, u32), Vec<FormalParameter>>,
    alloc: Global,
    names: &TypeNames,
    unit: u32,
    entries: &[EntryDecl],
) -> Result<(), Memory>
    ensures { OnOk result ((q : ℕ × ℕ) → formals_at kept.new q ≡ first_of_two (formals_at kept.old q) (if unit == q.0 then formals_among names.now (map plain_entry entries.now) q.1 else None)) }
{
    for entry in entries {
        keep_formals(
            kept,
            alloc,
            names,
            (unit, entry.name.name.0),
            &entry.formals,
        )?;
    }
    Ok(())
}

// Keeps the formals of a task or task type, unless one of its name came before.
fn keep_unit(
    units: &mut HashMap<u32, u32>,
    kept: &mut HashMap<(u32, u32), Vec<FormalParameter>>,
    alloc: Global,
    names: &TypeNames,
    unit: &TaskUnit,
) -> Result<(), Memory>
    ensures { OnOk result ((tasks : List PTask) → KeepsUnits names.now tasks units.old kept.old → KeepsUnits names.now (tasks ++ plain_task unit.now ∷ []) units.new kept.new) }
{
    let name = unit.name.name.0;
    let known = units.contains_key(&name);
    if known {
        return Ok(());
    }
    keep_first(units, name, name)?;
    keep_entries(kept, alloc, names, name, &unit.entries)
}

// Keeps the formals of a declaration, where it declares a task or task type.
fn keep_decl(
    units: &mut HashMap<u32, u32>,
    kept: &mut HashMap<(u32, u32), Vec<FormalParameter>>,
    alloc: Global,
    names: &TypeNames,
    decl: &Decl,
) -> Result<(), Memory>
    ensures { OnOk result ((tasks : List PTask) → KeepsUnits names.now tasks units.old kept.old → KeepsUnits names.now (tasks ++ tasks_in (plain_decl decl.now ∷ [])) units.new kept.new) }
{
    match &decl.kind {
        DeclKind::Task(unit) => keep_unit(units, kept, alloc, names, unit),
        _ => Ok(()),
    }
}

/// The formals of the entries that these declarations declare.
pub(crate) fn declared_formals(
    alloc: Global,
    names: &TypeNames,
    decls: &[Decl],
) -> Result<HashMap<(u32, u32), Vec<FormalParameter>>, Memory>
    ensures { IfOk result (λ formals. (q : ℕ × ℕ) → formals_at formals q ≡ formals_declared names.now (tasks_in (decl_list (decls_of (map plain_decl decls.now)))) q) }
{
    let mut units = HashMap::new(alloc);
    let mut formals = HashMap::new(alloc);
    for decl in decls {
        keep_decl(&mut units, &mut formals, alloc, names, decl)?;
    }
    Ok(formals)
}

// What is kept for an entry of a task.
fn kept_for_task<'a>(
    formals: &'a HashMap<(u32, u32), Vec<FormalParameter>>,
    task: Option<&TaskInfo>,
    name: NameId,
) -> &'a [FormalParameter]
    ensures { result.now ≡ kept_for_task formals.now (option_copied task.entry) name }
{
    match task {
        Some(info) => match formals.get(&(info.unit.0, name.0)) {
            Some(parameters) => parameters,
            None => &[],
        },
        None => &[],
    }
}

/// What is kept for the entry of this number.
pub(crate) fn kept_for_entry<'a>(
    formals: &'a HashMap<(u32, u32), Vec<FormalParameter>>,
    numbers: &Numbers,
    entry: u32,
) -> &'a [FormalParameter]
    ensures { result.now ≡ kept_for_entry formals.now numbers.now entry }
{
    match numbers.entry(entry) {
        Some(info) => kept_for_task(formals, numbers.tasks.get(info.owner as usize), info.name),
        None => &[],
    }
}
