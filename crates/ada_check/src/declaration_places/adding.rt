// What the declarations of the main procedure add to what stands around the places behind them.
#![tactic(auto, using(ada_check_rules::proofs::rules::Meeting::meeting))]

ghost use Rattle.std.specs.Prelude.{◌≡◌, map, OnOk, IfOk};
ghost use Rattle.ada_tree.specs.PlainDecl.{plain_shape, plain_entry, plain_task, plain_decl};
ghost use Rattle.syn_event.specs.CheckScope.{meaning};
ghost use Rattle.syn_event.specs.CheckSites.{with_meant, with_object, after_object, meant_by_task, after_task, after_decl};

use ada_check_rules::scopes::CheckScopes;
use ada_task_numbers::task_objects::is_array_type;
use ada_tree::{Decl, DeclKind, EntryDecl, Shape, TaskUnit, Word};
use scoped_names::name_sets::NameSet;
use std::alloc::{AllocError, Global};
use syn_event::Meant;

/// Declares names with one meaning.
pub(crate) fn declare_all(
    around: &mut CheckScopes,
    meant: Meant,
    names: &[Word],
) -> Result<(), AllocError>
    ensures { OnOk result (around.new ≡ with_meant meant around.old names.now) }
{
    for name in names {
        around.declare(*name, meant)?;
    }
    Ok(())
}

// Declares objects of main of a mark; they are shared where they are variables or arrays.
fn declare_marked(
    around: &mut CheckScopes,
    mark: Word,
    is_shared: bool,
    names: &[Word],
) -> Result<(), AllocError>
    ensures { OnOk result (around.new ≡ with_object around.old (meaning around.old mark.name) mark is_shared names.now) }
{
    match around.meaning(mark.name) {
        Some(Meant::TaskType) => { declare_all(around, Meant::TaskOf { unit: mark.name }, names) },
        _ => {
            if is_shared {
                declare_all(around, Meant::Shared, names)
            } else {
                Ok(())
            }
        }
    }
}

// Declares objects of main.
fn declare_objects(
    around: &mut CheckScopes,
    names: &[Word],
    constant: bool,
    shape: &Shape,
) -> Result<(), AllocError>
    ensures { OnOk result (around.new ≡ after_object around.old names.now constant (plain_shape shape.now)) }
{
    match shape {
        Shape::Plain(subind) => {
            let is_shared = !constant || is_array_type(around.types(), subind.mark.name);
            declare_marked(around, subind.mark, is_shared, names)
        }
        Shape::ConstrainedArray { part, .. } => declare_marked(around, part.mark, true, names),
    }
}

// The names of the entries of a task.
fn entry_names(alloc: Global, entries: &[EntryDecl]) -> Result<NameSet, AllocError>
    ensures { IfOk result (λ names. names ≡ map (λ e. e.name.name) (map plain_entry entries.now)) }
{
    let mut names = NameSet::new(alloc);
    for done in 0..entries.len() {
        let place = entries.len() - 1 - done;
        let entry = &entries[place];
        names.add(entry.name.name)?;
    }
    Ok(names)
}

// What a task or task type is.
fn meant_by_task(unit: &TaskUnit) -> Meant
    ensures { result ≡ meant_by_task (plain_task unit.now) }
{
    if unit.of_kind {
        Meant::TaskType
    } else {
        Meant::TaskOf {
            unit: unit.name.name,
        }
    }
}

// Declares a task or task type.
fn declare_task(around: &mut CheckScopes, alloc: Global, unit: &TaskUnit) -> Result<(), AllocError>
    ensures { OnOk result (around.new ≡ after_task around.old (plain_task unit.now)) }
{
    let entries = entry_names(alloc, &unit.entries)?;
    around.add_unit(unit.name.name, entries)?;
    around.declare(unit.name, meant_by_task(unit))
}

/// Declares what a declaration of the main procedure adds: objects that are shared or are tasks, tasks, and task types.
pub fn declare(around: &mut CheckScopes, alloc: Global, decl: &Decl) -> Result<(), AllocError>
    ensures { OnOk result (around.new ≡ after_decl around.old (plain_decl decl.now)) }
{
    match &decl.kind {
        DeclKind::Object {
            names,
            constant,
            shape,
            ..
        } => declare_objects(around, names, *constant, shape),
        DeclKind::Task(unit) => declare_task(around, alloc, unit),
        _ => Ok(()),
    }
}
