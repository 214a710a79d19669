// Tasks and task types.

ghost use Rattle.std.specs.Prelude.{◌≡◌, false, map, flat_map, Some, IfOk, OnOk};
ghost use Rattle.ada_tree.specs.PlainDecl.{plain_priority, plain_task};
ghost use Rattle.ada_static_rules.specs.Scope.{integer_kind};
ghost use Rattle.ada_static_rules.specs.Declaring.{task_thing, with_name, after_task};
ghost use Rattle.ada_static_rules.specs.Sites.{static_of, task_sites};
ghost use Rattle.ada_static_rules.specs.RefusedFirst.{refused_first};
ghost use Rattle.ada_scopes.specs.Entries.{plain_entry};
ghost use Rattle.ada_scopes.specs.Denotations.{plain_thing};
ghost use Rattle.ada_types.specs.inner.Decls.{IsDecl};

use crate::walked_decls::WalkedDecl;
use ada_entry_rules::entries::walk_entries;
use ada_expr_rules::kinds::INTEGER;
use ada_expr_rules::walking::walk_static;
use ada_scopes::denotations::{Entries, EntryPart, Thing};
use ada_scopes::scope::Scope;
use ada_static_rules::refusals::{Refusal, first};
use ada_tree::{EntryDecl, Priority, TaskUnit};
use std::alloc::{AllocError, Global};
use std::rc::Rc;

// Walks the priorities of a task.
fn walk_priorities(scope: &Scope, priorities: &[Priority]) -> Option<Refusal>
    ensures { result ≡ refused_first (flat_map (λ p. static_of scope.now (Some integer_kind) p.value) (map plain_priority priorities.now)) }
{
    let mut refusal = None;
    for priority in priorities {
        refusal = first(
            refusal,
            walk_static(scope, Some(INTEGER), &priority.value).refusal,
        );
    }
    refusal
}

// A task type or a single task with these entries.
fn task_of(alloc: Global, of_kind: bool, parts: Vec<EntryPart>) -> Result<Thing, AllocError>
    ensures { IfOk result (λ thing. plain_thing thing ≡ task_thing of_kind (map plain_entry parts.items)) }
{
    match Rc::new(alloc, Entries::new(alloc, parts)?) {
        Ok(entries) => Ok(if of_kind {
            Thing::TaskType(entries)
        } else {
            Thing::SingleTask(entries)
        }),
        Err(_) => Err(AllocError),
    }
}

// Each of these is an entry of the name that is declared next.
fn hint_at_entries(scope: &mut Scope, entries: &[EntryDecl]) -> Result<(), AllocError>
    ensures { OnOk result (scope.new ≡ scope.old) }
{
    for entry in entries {
        scope.hint(entry.name.name)?;
    }
    Ok(())
}

// Declares a task or a task type, where its entries are found sooner then.
fn declare_task(scope: &mut Scope, task: &TaskUnit, thing: Thing) -> Result<(), AllocError>
    ensures { OnOk result (scope.new ≡ with_name (plain_thing thing) scope.old task.now.name) }
{
    hint_at_entries(scope, &task.entries)?;
    scope.declare(task.name, thing)
}

/// Walks the declaration of a task or a task type.
pub(crate) fn walk_task(
    scope: Scope,
    alloc: Global,
    task: &TaskUnit,
) -> Result<WalkedDecl, AllocError>
    ensures { IfOk result (IsDecl (task_sites scope (plain_task task.now)) (after_task scope (plain_task task.now)) false) }
{
    let walked = walk_entries(&scope, alloc, &task.entries)?;
    let priorities = walk_priorities(&scope, &task.priorities);
    let thing = task_of(alloc, task.of_kind, walked.parts)?;
    let mut scope = scope;
    declare_task(&mut scope, task, thing)?;
    Ok(WalkedDecl {
        scope,
        refusal: first(walked.refusal, priorities),
        of_tasks: false,
    })
}
