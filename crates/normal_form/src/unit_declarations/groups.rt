// Things that are kept by the numbers of names, those of one name in the order in which they came.

ghost use Rattle.std.specs.Prelude.{◌≡◌, ◌==◌, ◌++◌, ◌∷◌, [], ℕ, IfOk, OnOk, drop, if◌then◌else◌};
ghost use Rattle.normal_form.specs.unit_declarations.Groups.{group_at};

use ada_tree::Memory;
use std::alloc::Global;
use std::collections::HashMap;
use syn_event::TaskInfo;

// What is kept for a name, which is kept no longer.
fn take_group<T>(groups: &mut HashMap<u32, Vec<T>>, alloc: Global, name: u32) -> Vec<T>
    ensures taken { result.items ≡ group_at groups.old name }
    ensures left { (q : ℕ) → group_at groups.new q ≡ (if name == q then [] else group_at groups.old q) }
{
    match groups.remove(&name) {
        Some(list) => list,
        None => Vec::new(alloc),
    }
}

/// One thing more is kept for a name.
pub(crate) fn keep<T: Drop>(
    groups: &mut HashMap<u32, Vec<T>>,
    alloc: Global,
    name: u32,
    thing: T,
) -> Result<(), Memory>
    ensures { OnOk result ((q : ℕ) → group_at groups.new q ≡ group_at groups.old q ++ (if name == q then thing ∷ [] else [])) }
{
    let mut list = take_group(groups, alloc, name);
    list.push(thing)?;
    match groups.insert(name, list) {
        Ok(_) => Ok(()),
        Err(_) => Err(Memory),
    }
}

/// What is kept for a name, in order.
pub(crate) fn group<'a, T>(groups: &'a HashMap<u32, Vec<T>>, name: u32) -> &'a [T]
    ensures { result.now ≡ group_at groups.now name }
{
    match groups.get(&name) {
        Some(list) => list,
        None => &[],
    }
}

/// A number of 32 bits, for which there is no room from 2 ^ 32 on.
pub(crate) fn number_of(count: usize) -> Result<u32, Memory>
    ensures { IfOk result (λ number. number ≡ count) }
{
    match u32::try_from(count) {
        Ok(number) => Ok(number),
        Err(_) => Err(Memory),
    }
}

/// The tasks beside main.
pub(crate) fn beside(tasks: &[TaskInfo]) -> &[TaskInfo]
    ensures { result.now ≡ drop 1 tasks.now }
{
    if tasks.is_empty() { tasks } else { &tasks[1..] }
}
