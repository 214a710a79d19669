// The doubles of entries: their texts, and their ids by those of the entries.

ghost use Rattle.std.specs.Prelude.{◌≡◌, ◌++◌, [], ◌∷◌, map, string_bytes, length, take, IfOk, OnOk};
ghost use Rattle.syn_event.specs.DeclaredTasks.{text_of};
ghost use Rattle.normal_model.specs.Names.{id_of};
ghost use Rattle.replay_model.specs.Names.{double_text};

use crate::names::find;
use ada_tree::{Memory, NameId, Names};
use std::alloc::Global;

// The text of the double of an entry with this text.
fn double_text(alloc: Global, text: &str) -> Result<String, Memory>
    ensures { IfOk result (λ made. string_bytes made ≡ double_text text.now) }
{
    let mut made = String::from_str(alloc, "DED_S_")?;
    made.push_str(text)?;
    Ok(made)
}

// The text of the double of an entry, by its id among some names.
pub(crate) fn double_of(alloc: Global, names: &Names, entry: NameId) -> Result<String, Memory>
    ensures { IfOk result (λ made. string_bytes made ≡ double_text (text_of names.now entry)) }
{
    match names.text(entry) {
        Some(text) => double_text(alloc, text),
        None => double_text(alloc, ""),
    }
}

/// The id that the double of an entry with this text has among names, 0 where it is not there. `beside` is as for `find`.
pub fn find_double(
    alloc: Global,
    text: &str,
    names: &Names,
    beside: &mut Names,
) -> Result<NameId, Memory>
    requires { take (length names.now) beside.old ≡ names.now }
    ensures id { IfOk result (λ id. id ≡ id_of names.now (double_text text.now)) }
    ensures beside { OnOk result (take (length names.now) beside.new ≡ names.now) }
{
    let double = double_text(alloc, text)?;
    find(names, beside, double.as_str())
}

// The id of the double of a text goes behind others.
fn put_double(
    alloc: Global,
    text: &str,
    names: &Names,
    beside: &mut Names,
    ids: &mut Vec<NameId>,
) -> Result<(), Memory>
    requires { take (length names.now) beside.old ≡ names.now }
    ensures ids { OnOk result (ids.new.items ≡ ids.old.items ++ id_of names.now (double_text text.now) ∷ []) }
    ensures beside { OnOk result (take (length names.now) beside.new ≡ names.now) }
{
    let id = find_double(alloc, text, names, beside)?;
    Ok(ids.push(id)?)
}

// The id of the double of the last name that there can be, if it is there, goes behind those of the others.
fn put_last_double(
    alloc: Global,
    originals: &Names,
    names: &Names,
    beside: &mut Names,
    ids: &mut Vec<NameId>,
) -> Result<(), Memory>
    requires among { take (length names.now) beside.old ≡ names.now }
    requires others { ids.old.items ≡ map (λ t. id_of names.now (double_text t)) (take 4294967295 originals.now) }
    ensures ids { OnOk result (ids.new.items ≡ map (λ t. id_of names.now (double_text t)) originals.now) }
    ensures beside { OnOk result (take (length names.now) beside.new ≡ names.now) }
{
    match originals.text(NameId(u32::MAX)) {
        Some(text) => put_double(alloc, text, names, beside, ids),
        None => Ok(()),
    }
}

/// The ids that the doubles of all of `originals` have among names, in the order of the originals. `beside` is as for `find`.
pub fn find_doubles(
    alloc: Global,
    originals: &Names,
    names: &Names,
    beside: &mut Names,
) -> Result<Vec<NameId>, Memory>
    requires { take (length names.now) beside.old ≡ names.now }
    ensures ids { IfOk result (λ ids. ids.items ≡ map (λ t. id_of names.now (double_text t)) originals.now) }
    ensures beside { OnOk result (take (length names.now) beside.new ≡ names.now) }
{
    let mut ids = Vec::new(alloc);
    for i in 0..u32::MAX {
        match originals.text(NameId(i)) {
            Some(text) => put_double(alloc, text, names, beside, &mut ids)?,
            None => return Ok(ids),
        }
    }
    put_last_double(alloc, originals, names, beside, &mut ids)?;
    Ok(ids)
}
