// One task for each number.

ghost use Rattle.std.specs.Prelude.{◌≡◌, ◌++◌, ℕ, IfOk, OnOk, drop, flat_map, map};
ghost use Rattle.ada_tree.specs.PlainDecl.{plain_decl, plain_task};
ghost use Rattle.syn_event.specs.DeclaredTasks.{decl_list};
ghost use Rattle.normal_model.specs.NormalTree.{task_declared, task_under, tasks_beside};
ghost use Rattle.normal_lookups.specs.names.SoFar.{AreNamesOf};
ghost use Rattle.normal_form.specs.unit_declarations.Groups.{group_at};
ghost use Rattle.normal_form.specs.unit_declarations.inner.Tasks.{called, seen_task, task_called};

use crate::unit_declarations::groups::{beside, group, keep, number_of};
use ada_tree::{Decl, DeclKind, Memory, NameId, Span, TaskUnit};
use ada_tree_copy::TreeCopy;
use ada_tree_copy::building::task_of;
use normal_lookups::Lookups;
use normal_lookups::names::NormalNames;
use std::alloc::Global;
use std::collections::HashMap;
use syn_event::TaskInfo;
use tree_rewriting::making::push_decl;

/// A declaration of a task or task type.
#[derive(Clone, Copy)]
pub(crate) struct TaskDecl<'p> {
    pub(crate) unit: &'p TaskUnit,
    pub(crate) span: Span,
}

// A declaration is kept for its name, where it is one of a task or task type.
fn keep_decl<'p>(
    groups: &mut HashMap<u32, Vec<TaskDecl<'p>>>,
    alloc: Global,
    decl: &'p Decl,
) -> Result<(), Memory>
    ensures { OnOk result ((q : ℕ) → map seen_task (group_at groups.new q) ≡ map seen_task (group_at groups.old q) ++ task_called q (plain_decl decl.now)) }
{
    match &decl.kind {
        DeclKind::Task(unit) => {
            let kept = TaskDecl {
                unit,
                span: decl.span,
            };
            keep(groups, alloc, unit.name.name.0, kept)
        }
        _ => Ok(()),
    }
}

// The declarations of tasks and task types are kept for their names.
fn keep_decls<'p>(
    groups: &mut HashMap<u32, Vec<TaskDecl<'p>>>,
    alloc: Global,
    decls: &'p [Decl],
) -> Result<(), Memory>
    ensures { OnOk result ((q : ℕ) → map seen_task (group_at groups.new q) ≡ map seen_task (group_at groups.old q) ++ flat_map (task_called q) (map plain_decl decls.now)) }
{
    for decl in decls {
        keep_decl(groups, alloc, decl)?;
    }
    Ok(())
}

// The declarations of tasks and task types by their names.
fn decls_by_name<'p>(
    alloc: Global,
    decls: &'p [Decl],
) -> Result<HashMap<u32, Vec<TaskDecl<'p>>>, Memory>
    ensures { IfOk result (λ groups. (q : ℕ) → map seen_task (group_at groups q) ≡ flat_map (task_called q) (map plain_decl decls.now)) }
{
    let mut groups = HashMap::new(alloc);
    keep_decls(&mut groups, alloc, decls)?;
    Ok(groups)
}

// A task with the entries and pragmas of a task or task type, under another name.
fn task_under(alloc: Global, name: NameId, unit: &TaskUnit) -> Result<TaskUnit, Memory>
    ensures { IfOk result (λ made. plain_task made ≡ task_under name (plain_task unit.now)) }
{
    match unit.copy(alloc) {
        Ok(copy) => {
            let mut made = copy;
            made.name.name = name;
            made.of_kind = false;
            Ok(made)
        }
        Err(e) => Err(e),
    }
}

// The declarations of a name go behind others, under another name.
fn push_called(
    alloc: Global,
    decls: &[TaskDecl],
    name: NameId,
    out: &mut Vec<Decl>,
) -> Result<(), Memory>
    ensures { OnOk result (map plain_decl out.new.items ≡ map plain_decl out.old.items ++ map (called name) (map seen_task decls.now)) }
{
    for decl in decls {
        push_decl(out, task_of(task_under(alloc, name, decl.unit), decl.span))?;
    }
    Ok(())
}

// One task for each of the tasks beside main goes behind other declarations.
fn push_each(
    alloc: Global,
    lookups: &Lookups,
    names: &NormalNames,
    groups: &HashMap<u32, Vec<TaskDecl>>,
    tasks: &[TaskInfo],
    out: &mut Vec<Decl>,
) -> Result<(), Memory>
    requires names { AreNamesOf lookups.now names.now }
    requires tasks { tasks.now ≡ drop 1 lookups.now.numbers.tasks }
    requires groups { (q : ℕ) → map seen_task (group_at groups.now q) ≡ flat_map (task_called q) (decl_list lookups.now.program.decls) }
    ensures { OnOk result (map plain_decl out.new.items ≡ map plain_decl out.old.items ++ flat_map (task_declared lookups.now) tasks.now) }
{
    for (place, info) in tasks.iter().enumerate() {
        let name = names.task(number_of(place + 1)?);
        push_called(alloc, group(groups, info.unit.0), name, out)?;
    }
    Ok(())
}

/// One task for each number from 1 on goes behind other declarations: the declaration of its task or task type, under its name in the normal form.
pub fn push_tasks(
    alloc: Global,
    lookups: &Lookups,
    names: &NormalNames,
    out: &mut Vec<Decl>,
) -> Result<(), Memory>
    requires { AreNamesOf lookups.now names.now }
    ensures { OnOk result (map plain_decl out.new.items ≡ map plain_decl out.old.items ++ flat_map (task_declared lookups.now) (tasks_beside lookups.now)) }
{
    let groups = decls_by_name(alloc, &lookups.links().program().decls)?;
    let tasks = beside(&lookups.links().numbers().tasks);
    push_each(alloc, lookups, names, &groups, tasks, out)
}
