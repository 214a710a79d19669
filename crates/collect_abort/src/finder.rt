// The ids of names, by their texts.

ghost use Rattle.std.specs.Prelude.{◌≡◌, [], IfOk, OnOk, map, string_bytes};
ghost use Rattle.ada_tree.specs.NameList.{AreNames, interned};
ghost use Rattle.normal_model.specs.Names.{id_of};

use ada_tree::{Memory, NameId, Names};
use indexmap::IndexSet;
use std::alloc::Global;
use std::marker::Model;

/// The names of a text, which are found by their texts in time that does not grow with how many there are.
#[derive(Drop)]
pub(crate) struct Finder {
    texts: IndexSet<String>,
}

impl Model for Finder {
    ghost use Rattle.std.specs.Prelude.{ℕ, List, map, string_bytes};
    ghost use Rattle.ada_tree.specs.NameList.{AreNames};

    ghost Value = { List (List ℕ) };

    ghost view = { λ a. map string_bytes a.texts.keys };

    ghost invariant = { λ a. AreNames (map string_bytes a.texts.keys) };
}

impl Finder {
    /// The same names.
    pub(crate) fn new(alloc: Global, names: &Names) -> Result<Finder, Memory>
        ensures { IfOk result (λ found. found ≡ names.now) }
    {
        let mut texts = IndexSet::new(alloc);
        insert_all(alloc, names, &mut texts)?;
        Ok(Finder { texts })
    }

    /// The id of a text, and 0 where it is not there.
    pub(crate) fn find(&self, text: &str) -> NameId
        ensures { result ≡ id_of self.now text.now }
    {
        match self.texts.get_index_of(text) {
            Some(place) => NameId(place as u32),
            None => NameId(0),
        }
    }
}

// A text goes behind others.
fn insert_one(alloc: Global, text: &str, texts: &mut IndexSet<String>) -> Result<(), Memory>
    ensures { OnOk result (map string_bytes texts.new.keys ≡ interned (map string_bytes texts.old.keys) text.now) }
{
    texts.insert(String::from_str(alloc, text)?)?;
    Ok(())
}

// The texts of all names, in the order of their ids.
fn insert_all(alloc: Global, names: &Names, texts: &mut IndexSet<String>) -> Result<(), Memory>
    requires { texts.old.keys ≡ [] }
    ensures texts { OnOk result (map string_bytes texts.new.keys ≡ names.now) }
    ensures names { OnOk result (AreNames names.now) }
{
    for id in 0..u32::MAX {
        match names.text(NameId(id)) {
            Some(text) => insert_one(alloc, text, texts)?,
            None => return Ok(()),
        }
    }
    match names.text(NameId(u32::MAX)) {
        Some(text) => insert_one(alloc, text, texts),
        None => Ok(()),
    }
}
