// What the entries of a replay text stand for. The entries that are not added are kept by the names of their doubles, so that none is searched for.

ghost use Rattle.std.specs.Prelude.{◌≡◌, List, ◌<◌, ◌^◌, ◌++◌, ◌∷◌, [], codes, nat_eq, length, take, IfOk, OnOk};
ghost use Rattle.std.specs.List.{starts_with};
ghost use Rattle.ada_tree.specs.NameList.{AreNames};
ghost use Rattle.syn_event.specs.declared.numbering.EntryInfo.{EntryInfo};
ghost use Rattle.syn_event.specs.AddedNames.{with_origin, with_origins};
ghost use Rattle.syn_event.specs.DeclaredTasks.{text_of};
ghost use Rattle.normal_model.specs.Names.{id_of};
ghost use Rattle.replay_model.specs.Names.{double_text};
ghost use Rattle.replay_xform.specs.numbering.inner.Originals.{doubled, originals, origin_in, with_number};

use ada_tree::{Memory, NameId, Names};
use replay_asking::names::find_double;
use std::alloc::Global;
use syn_event::{EntryInfo, Numbers, name_of};
use task_links::TaskNames;

// The id of the double of an entry's name.
fn double_name(
    alloc: Global,
    names: &Names,
    beside: &mut Names,
    name: NameId,
) -> Result<NameId, Memory>
    requires { take (length names.now) beside.old ≡ names.now }
    ensures id { IfOk result (λ id. id ≡ id_of names.now (double_text (text_of names.now name))) }
    ensures beside { OnOk result (take (length names.now) beside.new ≡ names.now) }
{
    match names.text(name) {
        Some(text) => find_double(alloc, text, names, beside),
        None => find_double(alloc, "", names, beside),
    }
}

// An entry goes behind others under the name of its double, if it is not added.
fn put_original(
    alloc: Global,
    names: &Names,
    beside: &mut Names,
    info: EntryInfo,
    entries: &mut Vec<EntryInfo>,
) -> Result<(), Memory>
    requires { take (length names.now) beside.old ≡ names.now }
    ensures entries { OnOk result (entries.new.items ≡ entries.old.items ++ doubled names.now (info ∷ [])) }
    ensures beside { OnOk result (take (length names.now) beside.new ≡ names.now) }
{
    if info.added {
        return Ok(());
    }
    let name = double_name(alloc, names, beside, info.name)?;
    entries.push(EntryInfo { name, ..info })?;
    Ok(())
}

// The entries that are not added, under the names of their doubles.
fn doubled(alloc: Global, names: &Names, all: &[EntryInfo]) -> Result<Vec<EntryInfo>, Memory>
    ensures { IfOk result (λ made. made.items ≡ doubled names.now all.now) }
{
    let mut beside = names.copy(alloc)?;
    let mut entries = Vec::new(alloc);
    for info in all {
        put_original(alloc, names, &mut beside, *info, &mut entries)?;
    }
    Ok(entries)
}

// They are so few that each has a number.
fn originals(alloc: Global, names: &Names, all: &[EntryInfo]) -> Result<Numbers, Memory>
    ensures { IfOk result (λ made. made ≡ originals names.now all.now) }
{
    let entries = doubled(alloc, names, all)?;
    few(entries.len())?;
    Ok(Numbers {
        main: NameId::INTEGER,
        tasks: Vec::new(alloc),
        entries,
    })
}

/// There is no room for more tasks or entries than have a number.
pub(crate) fn few(count: usize) -> Result<(), Memory>
    ensures { OnOk result (count < 2 ^ 32) }
{
    match u32::try_from(count) {
        Ok(_) => Ok(()),
        Err(_) => Err(Memory),
    }
}

// Whether a name may speak of another entry.
fn may_speak(names: &Names, name: NameId) -> bool
    ensures speaks { result ≡ starts_with nat_eq (text_of names.now name) (codes "DED_S_") }
    ensures names { AreNames names.now }
{
    name_of(names, name).starts_with(b"DED_S_")
}

// The original number of what an entry stands for.
fn origin_in(names: &Names, spoken: &TaskNames, info: EntryInfo) -> Option<u32>
    ensures origin { result ≡ origin_in names.now spoken.now info }
    ensures names { AreNames names.now }
{
    if may_speak(names, info.name) {
        spoken.entry_named(info.owner, info.name)
    } else {
        None
    }
}

// An entry that stands for that of this original number.
fn with_number(info: EntryInfo, stands_for: Option<u32>) -> EntryInfo
    ensures { result ≡ with_number info stands_for }
{
    EntryInfo { stands_for, ..info }
}

// The entry with what it stands for among entries.
fn with_origin(names: &Names, spoken: &TaskNames, info: EntryInfo) -> EntryInfo
    ensures { (all : List EntryInfo) → spoken.now ≡ originals names.now all → result ≡ with_origin names.now all info }
{
    let stands_for = origin_in(names, spoken, info);
    with_number(info, stands_for)
}

/// Each entry with what it stands for.
pub(crate) fn with_origins(
    alloc: Global,
    names: &Names,
    all: &[EntryInfo],
) -> Result<Vec<EntryInfo>, Memory>
    ensures { IfOk result (λ made. made.items ≡ with_origins names.now all.now) }
{
    let originals = originals(alloc, names, all)?;
    let spoken = TaskNames::new(alloc, &originals)?;
    let mut entries = Vec::new(alloc);
    for info in all {
        entries.push(with_origin(names, &spoken, *info))?;
    }
    Ok(entries)
}
