// What the rules refuse first in the declarations of tasks and task types, with their entries.
#![tactic(auto, using(ada_check_rules::proofs::rules::Meeting::meeting))]

ghost use Rattle.std.specs.Prelude.{◌≡◌, None, map, flat_map, option_map, IfOk};
ghost use Rattle.ada_tree.specs.PlainExpr.{plain_drange};
ghost use Rattle.ada_tree.specs.PlainDecl.{plain_entry, plain_priority, plain_task};
ghost use Rattle.syn_event.specs.CheckScope.{CheckScope, needs_body};
ghost use Rattle.syn_event.specs.CheckSites.{if_there, expr_sites, family_sites, entry_sites, task_sites};
ghost use Rattle.ada_check_rules.specs.rules.RefusedFirst.{Standard as By, refused_first_at, refused_first};
ghost use Rattle.scoped_names.specs.name_sets.Numbers.{numbers_in};

use crate::declaration_places::objects::refuse_size;
use ada_check_places::parts::{walk_drange, walk_expr, walk_formals};
use ada_check_rules::rules::{Refusal, Rule, Standard, first, refuse_formals, refuse_if};
use ada_check_rules::scopes::CheckScopes;
use ada_tree::{Drange, EntryDecl, Priority, Span, TaskUnit};
use scoped_names::name_sets::NameSet;
use std::alloc::AllocError;
use syn_event::What;

// The range of a family.
fn walk_family(
    around: &CheckScopes,
    by: &Standard,
    family: &Option<Drange>,
) -> Result<Option<Refusal>, AllocError>
    ensures { IfOk result (λ r. r ≡ refused_first by.now (if_there (family_sites around.now) (option_map plain_drange family.now))) }
{
    match family {
        Some(range) => {
            let many = refuse_size(around, by, What::Members, range);
            Ok(first(many, walk_drange(around, by, 2, range)?))
        }
        None => Ok(None),
    }
}

// An entry.
fn walk_entry(
    around: &CheckScopes,
    by: &Standard,
    entry: &EntryDecl,
) -> Result<Option<Refusal>, AllocError>
    ensures { IfOk result (λ r. r ≡ refused_first by.now (entry_sites around.now (plain_entry entry.now))) }
{
    let name = by.refuse_name(entry.name);
    let family = walk_family(around, by, &entry.family)?;
    let formals = walk_formals(by, &entry.formals);
    let many = refuse_formals(by, &entry.formals);
    Ok(first(first(first(name, family), formals), many))
}

// The entries of a task.
fn walk_entries(
    around: &CheckScopes,
    by: &Standard,
    entries: &[EntryDecl],
) -> Result<Option<Refusal>, AllocError>
    ensures { IfOk result (λ r. r ≡ refused_first by.now (flat_map (entry_sites around.now) (map plain_entry entries.now))) }
{
    let mut refusal = None;
    for entry in entries {
        let found = walk_entry(around, by, entry)?;
        refusal = first(refusal, found);
    }
    Ok(refusal)
}

// The priorities of a task.
fn walk_priorities(
    around: &CheckScopes,
    by: &Standard,
    priorities: &[Priority],
) -> Result<Option<Refusal>, AllocError>
    ensures { IfOk result (λ r. r ≡ refused_first by.now (flat_map (λ p. expr_sites around.now 2 p.value) (map plain_priority priorities.now))) }
{
    let mut refusal = None;
    for priority in priorities {
        let found = walk_expr(around, by, 2, &priority.value)?;
        refusal = first(refusal, found);
    }
    Ok(refusal)
}

// A task or task type without a body.
fn refuse_bodiless(bodies: &NameSet, unit: &TaskUnit, span: Span) -> Option<Refusal>
    ensures { (by : By) → (around : CheckScope) → result ≡ refused_first_at by around (needs_body (numbers_in bodies.now) unit.now.name span) }
{
    refuse_if(!bodies.has(unit.name.name), Rule::BodyMissing, span)
}

/// A task or task type.
pub(crate) fn walk_task(
    around: &CheckScopes,
    by: &Standard,
    bodies: &NameSet,
    unit: &TaskUnit,
    span: Span,
) -> Result<Option<Refusal>, AllocError>
    ensures { IfOk result (λ r. r ≡ refused_first by.now (task_sites around.now (numbers_in bodies.now) (plain_task unit.now) span)) }
{
    let missing = refuse_bodiless(bodies, unit, span);
    let name = by.refuse_name(unit.name);
    let entries = walk_entries(around, by, &unit.entries)?;
    let priorities = walk_priorities(around, by, &unit.priorities)?;
    Ok(first(first(first(missing, name), entries), priorities))
}
