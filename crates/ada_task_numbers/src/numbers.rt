// The numbers of the tasks and entries of a program that keeps to the limits.

ghost use Rattle.std.specs.Prelude.{◌≡◌, ◌<◌, ◌^◌, ◌∷◌, ◌++◌, ◌||◌, [], pos, ◌+ℤ◌, Some, None, map, length, position, option_map, nat_eq, codes, IfOk, IfSome, OnOk};
ghost use Rattle.std.specs.Cmp.Lexicographic.{pointwise};
ghost use Rattle.ada_tree.specs.PlainExpr.{plain_drange};
ghost use Rattle.ada_tree.specs.PlainDecl.{plain_entry};
ghost use Rattle.ada_tree.specs.PlainProgram.{plain_program};
ghost use Rattle.syn_event.specs.DeclaredTasks.{text_of};
ghost use Rattle.syn_event.specs.AddedNames.{is_added_name, task_info, speaks_of, original_number, with_origin, with_origins};
ghost use Rattle.syn_event.specs.Extents.{count_to, size_of};
ghost use Rattle.syn_event.specs.NamedTasks.{numbered_task, tasks_of_name};
ghost use Rattle.syn_event.specs.AllNumbers.{info_of_task, entry_of_task, entries_of_tasks, family_extent, first_of, last_index, all_numbers};
ghost use Rattle.ada_task_numbers.specs.task_objects.PlainNames.{plain_extent, plain_named_tasks};
ghost use Rattle.ada_task_numbers.specs.inner.TasksWithin.{tasks_within};

use crate::task_objects::{Extent, NamedTasks, extent_of, task_names_of, width};
use ada_tree::{Drange, EntryDecl, NameId, Names, Program, Types};
use std::alloc::{AllocError, Global};
use syn_event::{EntryInfo, Numbers, TaskInfo};

// The text of a name.
fn text_of(names: &Names, name: NameId) -> &[u8]
    ensures { result.now ≡ text_of names.now name }
{
    match names.text(name) {
        Some(text) => text.as_bytes(),
        None => b"",
    }
}

// Whether a rewriter made a name.
fn is_added_name(names: &Names, name: NameId) -> bool
    ensures { result ≡ is_added_name names.now name }
{
    text_of(names, name).starts_with(b"DED_")
}

// A number that an index or a bound may be, for which there is no room beyond 32 bits.
fn narrow(value: i64) -> Result<i32, AllocError>
    ensures { IfOk result (λ n. n ≡ value) }
{
    match i32::try_from(value) {
        Ok(value) => Ok(value),
        Err(_) => Err(AllocError),
    }
}

// A number of a task or an entry.
fn number_of(count: usize) -> Result<u32, AllocError>
    ensures { IfOk result (λ n. n ≡ count) }
{
    match u32::try_from(count) {
        Ok(number) => Ok(number),
        Err(_) => Err(AllocError),
    }
}

// Main, which runs its own body.
fn main_info(names: &Names, name: NameId) -> TaskInfo
    ensures { result ≡ task_info names.now name }
{
    TaskInfo {
        name,
        added: is_added_name(names, name),
        unit: name,
        member: None,
    }
}

// A task that a name stands for.
fn info_of_task(names: &Names, part: &NamedTasks, member: Option<i32>) -> TaskInfo
    ensures { result ≡ info_of_task names.now (numbered_task (plain_named_tasks part.now) member) }
{
    TaskInfo {
        name: part.name.name,
        added: is_added_name(names, part.name.name),
        unit: part.unit.name.name,
        member,
    }
}

// The extent of the range of a family.
fn family_extent(types: &Types, family: &Option<Drange>) -> Option<Extent>
    ensures { option_map plain_extent result ≡ family_extent types.now (option_map plain_drange family.now) }
{
    match family {
        Some(range) => extent_of(types, range),
        None => None,
    }
}

// The first index of a family.
fn first_of(x: Option<Extent>) -> i64
    ensures { result ≡ first_of (option_map plain_extent x) }
{
    match x {
        Some(x) => x.first,
        None => 0,
    }
}

// The last index of a family.
fn last_of(x: Option<Extent>) -> i64
    ensures { result ≡ last_index (option_map plain_extent x) }
{
    match x {
        Some(x) => x.last,
        None => 0,
    }
}

// An entry of the task of that number, before it is known what it stands for.
fn entry_info(
    names: &Names,
    types: &Types,
    owner: u32,
    part: &NamedTasks,
    entry: &EntryDecl,
) -> Result<EntryInfo, AllocError>
    ensures { IfOk result (λ info. info ≡ entry_of_task names.now types.now owner (numbered_task (plain_named_tasks part.now) None) (plain_entry entry.now)) }
{
    let extent = family_extent(types, &entry.family);
    Ok(EntryInfo {
        name: entry.name.name,
        owner,
        family: entry.family.is_some(),
        first: narrow(first_of(extent))?,
        last: narrow(last_of(extent))?,
        added: is_added_name(names, part.name.name) || is_added_name(names, entry.name.name),
        stands_for: None,
    })
}

// Appends the entries of a task.
fn push_entries(
    names: &Names,
    types: &Types,
    entries: &mut Vec<EntryInfo>,
    owner: u32,
    part: &NamedTasks,
) -> Result<(), AllocError>
    ensures { OnOk result (entries.new.items ≡ entries.old.items ++ map (entry_of_task names.now types.now owner (numbered_task (plain_named_tasks part.now) None)) (map plain_entry part.now.unit.now.entries.items)) }
{
    for entry in &part.unit.entries {
        entries.push(entry_info(names, types, owner, part, entry)?)?;
    }
    Ok(())
}

// Appends a task with its entries.
fn push_task(
    names: &Names,
    types: &Types,
    tasks: &mut Vec<TaskInfo>,
    entries: &mut Vec<EntryInfo>,
    part: &NamedTasks,
    member: Option<i32>,
) -> Result<(), AllocError>
    ensures tasks { OnOk result (tasks.new.items ≡ tasks.old.items ++ info_of_task names.now (numbered_task (plain_named_tasks part.now) member) ∷ []) }
    ensures entries { OnOk result (entries.new.items ≡ entries.old.items ++ map (entry_of_task names.now types.now (length tasks.old.items) (numbered_task (plain_named_tasks part.now) member)) (plain_named_tasks part.now).unit.entries) }
{
    push_entries(names, types, entries, number_of(tasks.len())?, part)?;
    tasks.push(info_of_task(names, part, member))?;
    Ok(())
}

// Appends so many members of an array of tasks, from an index on.
fn push_members(
    names: &Names,
    types: &Types,
    tasks: &mut Vec<TaskInfo>,
    entries: &mut Vec<EntryInfo>,
    part: &NamedTasks,
    first: i64,
    count: u64,
) -> Result<(), AllocError>
    ensures tasks { OnOk result (tasks.new.items ≡ tasks.old.items ++ map (info_of_task names.now) (tasks_within (plain_named_tasks part.now) first count)) }
    ensures entries { OnOk result (entries.new.items ≡ entries.old.items ++ entries_of_tasks names.now types.now (length tasks.old.items) (tasks_within (plain_named_tasks part.now) first count)) }
{
    for step in 0..count {
        let index = member_index(first, step)?;
        push_task(names, types, tasks, entries, part, index)?;
    }
    Ok(())
}

// The index of a member so many behind the first one.
fn member_index(first: i64, step: u64) -> Result<Option<i32>, AllocError>
    ensures { IfOk result (λ index. index ≡ Some (first +ℤ pos step)) }
{
    match i32::try_from(first as i128 + step as i128) {
        Ok(index) => Ok(Some(index)),
        Err(_) => Err(AllocError),
    }
}

// How many values there are, for which there is no room beyond 64 bits; none below 0.
#[tactic(auto, using(crate::proofs::task_objects::Reaching::counting))]
fn count_to(width: i128) -> Result<u64, AllocError>
    ensures { IfOk result (λ n. n ≡ count_to width) }
{
    if width < 0 {
        return Ok(0);
    }
    match u64::try_from(width) {
        Ok(count) => Ok(count),
        Err(_) => Err(AllocError),
    }
}

// How many values an extent has.
fn size_of(x: Extent) -> Result<u64, AllocError>
    ensures { IfOk result (λ n. n ≡ size_of (plain_extent x)) }
{
    count_to(width(x))
}

// Appends the tasks that a name stands for, with their entries.
fn push_tasks(
    names: &Names,
    types: &Types,
    tasks: &mut Vec<TaskInfo>,
    entries: &mut Vec<EntryInfo>,
    part: &NamedTasks,
) -> Result<(), AllocError>
    ensures tasks { OnOk result (tasks.new.items ≡ tasks.old.items ++ map (info_of_task names.now) (tasks_of_name types.now (plain_named_tasks part.now))) }
    ensures entries { OnOk result (entries.new.items ≡ entries.old.items ++ entries_of_tasks names.now types.now (length tasks.old.items) (tasks_of_name types.now (plain_named_tasks part.now))) }
{
    match part.index_range {
        Some(range) => match extent_of(types, range) {
            Some(x) => push_members(names, types, tasks, entries, part, x.first, size_of(x)?),
            None => Ok(()),
        },
        None => push_task(names, types, tasks, entries, part, None),
    }
}

// Whether a text is DED_S_ with another one behind it.
fn is_spoken(text: &[u8], other: &[u8]) -> bool
    ensures { result ≡ pointwise nat_eq text.now (codes "DED_S_" ++ other.now) }
{
    match text.strip_prefix(b"DED_S_") {
        Some(rest) => rest == other,
        None => false,
    }
}

// Whether the name of an entry speaks of another one.
fn speaks_of(names: &Names, info: &EntryInfo, other: &EntryInfo) -> bool
    ensures { result ≡ speaks_of names.now info.now other.now }
{
    other.owner == info.owner
        && !other.added
        && is_spoken(text_of(names, info.name), text_of(names, other.name))
}

// The place of the first entry that the name of an entry speaks of. Limits hold the number of entries down, so that all are gone through.
fn spoken_place(names: &Names, all: &[EntryInfo], info: &EntryInfo) -> Option<usize>
    ensures place { result ≡ position (speaks_of names.now info.now) all.now }
    ensures within { IfSome result (λ place. place < length all.now) }
{
    all.iter().position(|other| speaks_of(names, info, other))
}

// The number among the entries that are not added, given a place among all.
fn original_number(all: &[EntryInfo], place: usize) -> Result<u32, AllocError>
    requires { place < length all.now }
    ensures { IfOk result (λ n. n ≡ original_number all.now place) }
{
    let upto = &all[..place + 1];
    number_of(upto.iter().filter(|info| !info.added).count())
}

// What an entry stands for, by its original number.
fn origin_of(names: &Names, all: &[EntryInfo], info: &EntryInfo) -> Result<Option<u32>, AllocError>
    ensures { IfOk result (λ o. o ≡ option_map (original_number all.now) (position (speaks_of names.now info.now) all.now)) }
{
    match spoken_place(names, all, info) {
        Some(place) => Ok(Some(original_number(all, place)?)),
        None => Ok(None),
    }
}

// The entry with what it stands for.
fn with_origin(names: &Names, all: &[EntryInfo], info: EntryInfo) -> Result<EntryInfo, AllocError>
    ensures { IfOk result (λ r. r ≡ with_origin names.now all.now info) }
{
    let stands_for = origin_of(names, all, &info)?;
    Ok(EntryInfo { stands_for, ..info })
}

// Each entry with what it stands for.
fn with_origins(
    alloc: Global,
    names: &Names,
    all: &[EntryInfo],
) -> Result<Vec<EntryInfo>, AllocError>
    ensures { IfOk result (λ r. r.items ≡ with_origins names.now all.now) }
{
    let mut entries = Vec::new(alloc);
    for info in all {
        entries.push(with_origin(names, all, *info)?)?;
    }
    Ok(entries)
}

// There is no room for more tasks or entries than have a number.
fn refuse_beyond(tasks: usize, entries: usize) -> Result<(), AllocError>
    ensures tasks { OnOk result (tasks < 2 ^ 32) }
    ensures entries { OnOk result (entries < 2 ^ 32) }
{
    number_of(tasks)?;
    number_of(entries)?;
    Ok(())
}

/// The numbers of a program with those types. Limits are checked before, so that there are few tasks.
pub fn numbers_for(alloc: Global, p: &Program, types: &Types) -> Result<Numbers, AllocError>
    ensures { IfOk result (λ numbers. numbers ≡ all_numbers types.now (plain_program p.now)) }
{
    let parts = task_names_of(alloc, p)?;
    let mut tasks = Vec::new(alloc);
    let mut entries = Vec::new(alloc);
    tasks.push(main_info(&p.names, p.name.name))?;
    for part in &parts {
        push_tasks(&p.names, types, &mut tasks, &mut entries, part)?;
    }
    let entries = with_origins(alloc, &p.names, &entries)?;
    refuse_beyond(tasks.len(), entries.len())?;
    Ok(Numbers {
        main: p.name.name,
        tasks,
        entries,
    })
}
