// The members of arrays of tasks, by the arrays' names.

ghost use Rattle.std.specs.Prelude.{◌≡◌, ◌==◌, ◌++◌, ◌∷◌, [], ℕ, Some, IfOk, OnOk, map, if◌then◌else◌};
ghost use Rattle.ada_tree.specs.declared.naming.NameId.{NameId};
ghost use Rattle.ada_tree.specs.declared.naming.Span.{Span};
ghost use Rattle.syn_event.specs.Numbering.{task_at};
ghost use Rattle.normal_lookups.specs.names.SoFar.{AreNamesOf};
ghost use Rattle.normal_lookups.specs.pieces.Seen.{member_meant, member_seen};
ghost use Rattle.normal_lookups.specs.meanings.Meant.{AreMembersOf};
ghost use Rattle.normal_lookups.specs.meanings.Kept.{AreMembers, members_among, members_at};

use crate::Lookups;
use crate::meanings::literals::index_literal;
use crate::names::NormalNames;
use crate::pieces::Member;
use ada_tree::{Memory, NameId};
use std::alloc::Global;
use std::collections::HashMap;
use syn_event::TaskInfo;

/// The members of arrays of tasks, by the arrays' names.
#[derive(Drop)]
pub struct Members {
    pub lists: HashMap<u32, Vec<Member>>,
}

// The members that are kept for a name, which are kept no longer.
fn take_members(members: &mut HashMap<u32, Vec<Member>>, alloc: Global, name: u32) -> Vec<Member>
    ensures taken { result.items ≡ members_at members.old name }
    ensures left { (q : ℕ) → members_at members.new q ≡ (if name == q then [] else members_at members.old q) }
{
    match members.remove(&name) {
        Some(list) => list,
        None => Vec::new(alloc),
    }
}

// One member more is kept for a name.
fn keep_member(
    members: &mut HashMap<u32, Vec<Member>>,
    alloc: Global,
    name: u32,
    member: Member,
) -> Result<(), Memory>
    ensures { OnOk result ((q : ℕ) → members_at members.new q ≡ members_at members.old q ++ (if name == q then member ∷ [] else [])) }
{
    let mut list = take_members(members, alloc, name);
    list.push(member)?;
    match members.insert(name, list) {
        Ok(_) => Ok(()),
        Err(_) => Err(Memory),
    }
}

// A task is kept, where it is a member of an array.
fn keep_task(
    members: &mut HashMap<u32, Vec<Member>>,
    alloc: Global,
    lookups: &Lookups,
    names: &NormalNames,
    number: u32,
    info: TaskInfo,
) -> Result<(), Memory>
    requires names { AreNamesOf lookups.now names.now }
    requires task { task_at lookups.now.numbers number ≡ Some info }
    ensures { OnOk result ((array : NameId) (s : Span) → map (member_seen s) (members_at members.new array.0) ≡ map (member_seen s) (members_at members.old array.0) ++ map (member_meant lookups.now s array) (members_among (info ∷ []) array)) }
{
    match info.member {
        Some(_) => {
            let member = Member {
                index: index_literal(lookups.kind_of_index(info.name), info.member),
                name: names.task(number),
            };
            keep_member(members, alloc, info.name.0, member)
        }
        None => Ok(()),
    }
}

// Those of some tasks that are members are kept.
fn keep_tasks(
    members: &mut HashMap<u32, Vec<Member>>,
    alloc: Global,
    lookups: &Lookups,
    names: &NormalNames,
    tasks: &[TaskInfo],
) -> Result<(), Memory>
    requires names { AreNamesOf lookups.now names.now }
    requires tasks { tasks.now ≡ lookups.now.numbers.tasks }
    requires none { AreMembers lookups.now [] members.old }
    ensures { OnOk result (AreMembers lookups.now tasks.now members.new) }
{
    for (place, info) in tasks.iter().enumerate() {
        keep_task(members, alloc, lookups, names, number_of(place)?, *info)?;
    }
    Ok(())
}

// The number that comes after so many, for which there is no room from 2 ^ 32 on.
fn number_of(count: usize) -> Result<u32, Memory>
    ensures { IfOk result (λ number. number ≡ count) }
{
    match u32::try_from(count) {
        Ok(number) => Ok(number),
        Err(_) => Err(Memory),
    }
}

/// The members of a program's arrays of tasks, by names that are those of its normal form.
pub fn members_of(alloc: Global, lookups: &Lookups, names: &NormalNames) -> Result<Members, Memory>
    requires { AreNamesOf lookups.now names.now }
    ensures { IfOk result (λ members. AreMembersOf lookups.now members) }
{
    let mut lists = HashMap::new(alloc);
    keep_tasks(
        &mut lists,
        alloc,
        lookups,
        names,
        &lookups.links().numbers().tasks,
    )?;
    Ok(Members { lists })
}

impl Members {
    /// The members of the array of a name, by ascending index.
    pub fn of(&self, array: NameId) -> &[Member]
        ensures { result.now ≡ members_at self.now.lists array.0 }
    {
        match self.lists.get(&array.0) {
            Some(list) => list,
            None => &[],
        }
    }
}
