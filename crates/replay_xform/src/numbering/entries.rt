// The entries of a replay text.

ghost use Rattle.std.specs.Prelude.{◌≡◌, ◌+◌, ◌++◌, map, IfOk, OnOk};
ghost use Rattle.replay_asking.specs.Looked.{voice_of};
ghost use Rattle.replay_xform.specs.numbering.Replayed.{plain_info, family_info, double_info, infos_of, infos_from, added_infos, all_infos};

use crate::numbering::owners::lists_of;
use ada_tree::{Memory, NameId, Span, Word};
use replay_asking::names::AddedNames;
use replay_asking::{Speaker, double_word};
use std::alloc::Global;
use syn_event::EntryInfo;

// A plain entry that is added.
fn plain_info(name: NameId, owner: u32) -> EntryInfo
    ensures { result ≡ plain_info name owner }
{
    EntryInfo {
        name,
        owner,
        family: false,
        first: 0,
        last: 0,
        added: true,
        stands_for: None,
    }
}

// A family for all tasks up to the last that is added.
fn family_info(name: NameId, owner: u32, last: u32) -> Result<EntryInfo, Memory>
    ensures { IfOk result (λ made. made ≡ family_info name owner last) }
{
    match i32::try_from(last) {
        Ok(last) => Ok(EntryInfo {
            name,
            owner,
            family: true,
            first: 0,
            last,
            added: true,
            stands_for: None,
        }),
        Err(_) => Err(Memory),
    }
}

// The double of an entry.
fn double_info(x: &Speaker, info: EntryInfo) -> EntryInfo
    ensures { result ≡ double_info (voice_of x.now) info }
{
    let span = Span { start: 0, end: 0 };
    let word = double_word(
        x,
        Word {
            name: info.name,
            span,
        },
    );
    EntryInfo {
        name: word.name,
        added: true,
        stands_for: None,
        ..info
    }
}

// Entries go behind others.
fn put_own(own: &[EntryInfo], out: &mut Vec<EntryInfo>) -> Result<(), Memory>
    ensures { OnOk result (out.new.items ≡ out.old.items ++ own.now) }
{
    for info in own {
        out.push(*info)?;
    }
    Ok(())
}

// The doubles of entries go behind others.
fn put_doubles(x: &Speaker, own: &[EntryInfo], out: &mut Vec<EntryInfo>) -> Result<(), Memory>
    ensures { OnOk result (out.new.items ≡ out.old.items ++ map (double_info (voice_of x.now)) own.now) }
{
    for info in own {
        out.push(double_info(x, *info))?;
    }
    Ok(())
}

// The entries of a task go behind others.
fn put_task(
    x: &Speaker,
    task: u32,
    own: &[EntryInfo],
    out: &mut Vec<EntryInfo>,
) -> Result<(), Memory>
    ensures { OnOk result (out.new.items ≡ out.old.items ++ infos_of (voice_of x.now) task own.now) }
{
    let names = &x.tables.added;
    put_own(own, out)?;
    put_doubles(x, own, out)?;
    out.push(plain_info(names.never, task))?;
    out.push(plain_info(names.join, task))?;
    Ok(())
}

// The next number; want of memory where there is none.
fn next(n: u32) -> Result<u32, Memory>
    ensures { IfOk result (λ m. m ≡ n + 1) }
{
    match n.checked_add(1) {
        Some(next) => Ok(next),
        None => Err(Memory),
    }
}

// The entries of tasks from 1 on go behind others.
fn put_tasks(x: &Speaker, lists: &[Vec<EntryInfo>], out: &mut Vec<EntryInfo>) -> Result<(), Memory>
    ensures { OnOk result (out.new.items ≡ out.old.items ++ infos_from (voice_of x.now) 1 (map (λ l. l.items) lists.now)) }
{
    let mut task = 0u32;
    for own in lists {
        task = next(task)?;
        put_task(x, task, own, out)?;
    }
    Ok(())
}

// The entries of the controller and of the idle task go behind others.
fn put_added(n: &AddedNames, last: u32, out: &mut Vec<EntryInfo>) -> Result<(), Memory>
    ensures { OnOk result (out.new.items ≡ out.old.items ++ added_infos n.now last) }
{
    let control = next(last)?;
    let idle = next(control)?;
    out.push(family_info(n.go, control, last)?)?;
    out.push(family_info(n.done, control, last)?)?;
    out.push(plain_info(n.hold, control))?;
    out.push(plain_info(n.stop, idle))?;
    out.push(plain_info(n.rest, idle))?;
    Ok(())
}

/// All entries, where `last` is the number of the last task, before it is known what they stand for.
pub(crate) fn all_infos(alloc: Global, x: &Speaker, last: u32) -> Result<Vec<EntryInfo>, Memory>
    ensures { IfOk result (λ made. made.items ≡ all_infos (voice_of x.now) last) }
{
    let numbers = x.numbers.numbers();
    let lists = lists_of(alloc, &numbers.entries, last as usize)?;
    let mut entries = Vec::new(alloc);
    put_tasks(x, &lists, &mut entries)?;
    put_added(&x.tables.added, last, &mut entries)?;
    Ok(entries)
}
