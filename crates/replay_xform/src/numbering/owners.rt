// The entries of each task, sorted by their owners in one go.

ghost use Rattle.std.specs.Prelude.{◌≡◌, ◌==◌, ◌+◌, ◌<◌, ◌++◌, ◌∷◌, [], List, length, map, replicate, IfOk, OnOk};
ghost use Rattle.syn_event.specs.declared.numbering.EntryInfo.{EntryInfo};
ghost use Rattle.replay_xform.specs.numbering.Replayed.{lists_from};
ghost use Rattle.replay_xform.specs.numbering.inner.Owners.{put_at, put_for};

use ada_tree::Memory;
use std::alloc::Global;
use syn_event::EntryInfo;

// One more empty list.
fn add_empty(alloc: Global, lists: &mut Vec<Vec<EntryInfo>>) -> Result<(), Memory>
    ensures { OnOk result (map (λ l. l.items) lists.new.items ≡ map (λ l. l.items) lists.old.items ++ [] ∷ []) }
{
    Ok(lists.push(Vec::new(alloc))?)
}

// So many empty lists.
fn empty_lists(alloc: Global, count: usize) -> Result<Vec<Vec<EntryInfo>>, Memory>
    ensures { IfOk result (λ lists. map (λ l. l.items) lists.items ≡ replicate count []) }
{
    let mut lists = Vec::new(alloc);
    for place in 0..count {
        add_empty(alloc, &mut lists)?;
    }
    Ok(lists)
}

// An entry goes behind those of a list.
fn push_at(lists: &mut Vec<Vec<EntryInfo>>, place: usize, info: EntryInfo) -> Result<(), Memory>
    requires { place < length lists.old.items }
    ensures { OnOk result (map (λ l. l.items) lists.new.items ≡ put_at place info (map (λ l. l.items) lists.old.items)) }
{
    Ok(lists[place].push(info)?)
}

// An entry goes behind those of its owner, where that has a list: the first list is that of task 1.
fn put_for(lists: &mut Vec<Vec<EntryInfo>>, info: EntryInfo) -> Result<(), Memory>
    ensures { OnOk result (map (λ l. l.items) lists.new.items ≡ put_for info (map (λ l. l.items) lists.old.items) 1) }
{
    let owner = info.owner as usize;
    if owner == 0 || owner > lists.len() {
        return Ok(());
    }
    push_at(lists, owner - 1, info)
}

/// The entries of so many tasks from 1 on, task by task.
pub(crate) fn lists_of(
    alloc: Global,
    entries: &[EntryInfo],
    count: usize,
) -> Result<Vec<Vec<EntryInfo>>, Memory>
    ensures { IfOk result (λ lists. map (λ l. l.items) lists.items ≡ lists_from entries.now count 1) }
{
    let mut lists = empty_lists(alloc, count)?;
    for info in entries {
        put_for(&mut lists, *info)?;
    }
    Ok(lists)
}
