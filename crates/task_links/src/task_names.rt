// What the names of tasks and entries mean.

ghost use Rattle.std.specs.Prelude.{◌≡◌, ◌==◌, ◌+◌, ◌&&◌, ℕ, ℤ, nat_eq, position, option_map, if◌then◌else◌, IfOk, OnOk};
ghost use Rattle.std.specs.HashMap.{get};
ghost use Rattle.ada_static_rules.specs.StaticValue.{first_of_two};
ghost use Rattle.syn_event.specs.Numbering.{entry_named, task_named};
ghost use Rattle.task_model.specs.Setting.{is_member, member_named};
ghost use Rattle.task_links.specs.inner.Keys.{entry_eq, member_eq};

use crate::keeping::{keep_entry, keep_first, keep_member, number_of};
use ada_tree::{Memory, NameId};
use ada_value::Raised;
use std::alloc::Global;
use std::collections::HashMap;
use std::marker::Model;
use syn_event::{EntryInfo, Numbers, TaskInfo};

/// The numbers of a program with what the names of its tasks and entries mean. A contract sees the numbers.
#[derive(Drop)]
pub struct TaskNames<'p> {
    numbers: &'p Numbers,
    tasks: HashMap<u32, u32>,
    members: HashMap<(u32, i64), u32>,
    entries: HashMap<(u32, u32), u32>,
}

impl<'p> Model for TaskNames<'p> {
    ghost use Rattle.syn_event.specs.Numbering.{Numbering};
    ghost use Rattle.task_links.specs.inner.Made.{KeepsTasks};

    ghost Value = { Numbering };

    ghost view = { λ a. a.numbers.now };

    ghost invariant = { λ a. KeepsTasks a.numbers.now a.tasks a.members a.entries };
}

// Keeps the number of the first task of each name.
#[tactic(auto, using(crate::proofs::KeepingLemmas::keeping))]
fn keep_tasks(map: &mut HashMap<u32, u32>, tasks: &[TaskInfo]) -> Result<(), Memory>
    ensures { OnOk result ((q : ℕ) → get nat_eq map.new q ≡ first_of_two (get nat_eq map.old q) (position (λ info. info.name.0 == q) tasks.now)) }
{
    for (place, info) in tasks.iter().enumerate() {
        keep_first(map, info.name.0, number_of(place)?)?;
    }
    Ok(())
}

// An index of an array, among the positions of all values.
fn wide(index: i32) -> i64
    ensures { result ≡ index }
{
    index as i64
}

// Keeps the number of a task that is a member of an array.
#[tactic(auto, using(crate::proofs::KeepingLemmas::keeping))]
fn keep_if_member(
    map: &mut HashMap<(u32, i64), u32>,
    info: TaskInfo,
    number: u32,
) -> Result<(), Memory>
    ensures { OnOk result ((q : ℕ × ℤ) → get member_eq map.new q ≡ first_of_two (get member_eq map.old q) (if (info.name.0 == q.0) && is_member q.1 info.member then Some number else None)) }
{
    match info.member {
        Some(index) => keep_member(map, info.name.0, wide(index), number),
        None => Ok(()),
    }
}

// Keeps the number of the first task of each name and index.
#[tactic(auto, using(crate::proofs::KeepingLemmas::keeping))]
fn keep_members(map: &mut HashMap<(u32, i64), u32>, tasks: &[TaskInfo]) -> Result<(), Memory>
    ensures { OnOk result ((q : ℕ × ℤ) → get member_eq map.new q ≡ first_of_two (get member_eq map.old q) (position (λ info. (info.name.0 == q.0) && is_member q.1 info.member) tasks.now)) }
{
    for (place, info) in tasks.iter().enumerate() {
        keep_if_member(map, *info, number_of(place)?)?;
    }
    Ok(())
}

// Keeps the number, from 1, of the first entry of each owner and name.
#[tactic(auto, using(crate::proofs::KeepingLemmas::keeping))]
fn keep_entries(map: &mut HashMap<(u32, u32), u32>, entries: &[EntryInfo]) -> Result<(), Memory>
    ensures { OnOk result ((q : ℕ × ℕ) → get entry_eq map.new q ≡ first_of_two (get entry_eq map.old q) (option_map (λ k. k + 1) (position (λ info. (info.owner == q.0) && (info.name.0 == q.1)) entries.now))) }
{
    for (place, info) in entries.iter().enumerate() {
        keep_entry(map, (info.owner, info.name.0), number_of(place + 1)?)?;
    }
    Ok(())
}

impl<'p> TaskNames<'p> {
    /// The names of the tasks and entries of these numbers.
    pub fn new(alloc: Global, numbers: &'p Numbers) -> Result<Self, Memory>
        ensures { IfOk result (λ names. names ≡ numbers.now) }
    {
        let mut tasks = HashMap::new(alloc);
        keep_tasks(&mut tasks, &numbers.tasks)?;
        let mut members = HashMap::new(alloc);
        keep_members(&mut members, &numbers.tasks)?;
        let mut entries = HashMap::new(alloc);
        keep_entries(&mut entries, &numbers.entries)?;
        Ok(TaskNames {
            numbers,
            tasks,
            members,
            entries,
        })
    }

    /// The numbers.
    pub fn numbers(&self) -> &Numbers
        ensures { result.now ≡ self.now }
    {
        self.numbers
    }

    /// The number of the first task of a name, the main program among them.
    pub fn task_named(&self, name: NameId) -> Option<u32>
        ensures { result ≡ task_named self.now name }
    {
        self.tasks.get(&name.0).copied()
    }

    /// The number of the member of an array of tasks at an index, as a value or a position; an index outside the array's range raises CONSTRAINT_ERROR (4.1.1, 9.1).
    pub fn member_named(&self, name: NameId, index: i64) -> Result<u32, Raised>
        ensures { result ≡ member_named self.now name index }
    {
        match self.members.get(&(name.0, index)) {
            Some(number) => Ok(*number),
            None => Err(Raised::Constraint),
        }
    }

    /// The number, from 1, of the first entry of a name among those of the task `owner`.
    pub fn entry_named(&self, owner: u32, name: NameId) -> Option<u32>
        ensures { result ≡ entry_named self.now owner name }
    {
        match self.entries.get(&(owner, name.0)) {
            Some(number) => Some(*number),
            None => None,
        }
    }
}
