// Names, and where they stand in the source.

ghost use Rattle.std.specs.Prelude.{◌≡◌, ◌≤◌, ◌↔◌, Some, IsNone, IfOk, OnOk, OnErr, option_map, length, slice_get, map, fold, string_bytes, []};
ghost use Rattle.ada_tree.specs.NameList.{predefined, interned, AreNames};

use crate::Memory;
use indexmap::IndexSet;
use std::alloc::Global;
use std::marker::Model;

/// The number of a name in the `Names` of its program, from 0 in the order in which the names came.
#[derive(Clone, Copy, Debug, PartialEq, Eq, PartialOrd, Ord, Hash)]
pub struct NameId(pub u32);

/// The predefined names and the attributes, which have the first ids in the `Names` of every program.
impl NameId {
    pub const INTEGER: NameId = NameId(0);

    pub const NATURAL: NameId = NameId(1);

    pub const POSITIVE: NameId = NameId(2);

    pub const BOOLEAN: NameId = NameId(3);

    pub const FALSE: NameId = NameId(4);

    pub const TRUE: NameId = NameId(5);

    pub const CONSTRAINT_ERROR: NameId = NameId(6);

    pub const NUMERIC_ERROR: NameId = NameId(7);

    pub const PROGRAM_ERROR: NameId = NameId(8);

    pub const TASKING_ERROR: NameId = NameId(9);

    pub const STORAGE_ERROR: NameId = NameId(10);

    pub const END_ERROR: NameId = NameId(11);

    pub const TEXT_IO: NameId = NameId(12);

    pub const INTEGER_IO: NameId = NameId(13);

    pub const PUT: NameId = NameId(14);

    pub const PUT_LINE: NameId = NameId(15);

    pub const NEW_LINE: NameId = NameId(16);

    pub const GET: NameId = NameId(17);

    pub const FIRST: NameId = NameId(18);

    pub const LAST: NameId = NameId(19);

    pub const POS: NameId = NameId(20);

    pub const VAL: NameId = NameId(21);

    pub const SUCC: NameId = NameId(22);

    pub const PRED: NameId = NameId(23);

    pub const IMAGE: NameId = NameId(24);
}

/// A piece of the source: the places, in bytes from 0, of its first byte and of the byte behind its last.
#[derive(Clone, Copy, Debug, PartialEq, Eq)]
pub struct Span {
    pub start: u32,
    pub end: u32,
}

/// A name as it stands in the source, with its place there.
#[derive(Clone, Copy, Debug, PartialEq, Eq)]
pub struct Word {
    pub name: NameId,
    pub span: Span,
}

/// The names of one program. A contract sees the list of their texts, in the order of their ids. The predefined names and the attributes come first, and no text stands twice.
#[derive(Drop)]
pub struct Names {
    alloc: Global,
    texts: IndexSet<String>,
}

impl Model for Names {
    ghost use Rattle.std.specs.Prelude.{ℕ, List, map, string_bytes};
    ghost use Rattle.ada_tree.specs.NameList.{AreNames};

    ghost Value = { List (List ℕ) };

    ghost view = { λ a. map string_bytes a.texts.keys };

    ghost invariant = { λ a. AreNames (map string_bytes a.texts.keys) };
}

impl Names {
    /// The predefined names and the attributes.
    pub fn new(alloc: Global) -> Result<Names, Memory>
        ensures { IfOk result (λ names. names ≡ predefined) }
    {
        let texts = with_texts(
            alloc,
            &[
                "INTEGER",
                "NATURAL",
                "POSITIVE",
                "BOOLEAN",
                "FALSE",
                "TRUE",
                "CONSTRAINT_ERROR",
                "NUMERIC_ERROR",
                "PROGRAM_ERROR",
                "TASKING_ERROR",
                "STORAGE_ERROR",
                "END_ERROR",
                "TEXT_IO",
                "INTEGER_IO",
                "PUT",
                "PUT_LINE",
                "NEW_LINE",
                "GET",
                "FIRST",
                "LAST",
                "POS",
                "VAL",
                "SUCC",
                "PRED",
                "IMAGE",
            ],
        )?;
        Ok(Names { alloc, texts })
    }

    /// The id of a text, which is a new one, behind all others, only where the text had none. After an error, which comes by want of memory or of a free id, the names are as before.
    pub fn intern(&mut self, upper: &str) -> Result<NameId, Memory>
        ensures named { IfOk result (λ id. slice_get self.new id.0 ≡ Some upper.now) }
        ensures texts { OnOk result (self.new ≡ interned self.old upper.now) }
        ensures err { OnErr result (self.new ≡ self.old) }
        ensures names { AreNames self.new }
    {
        if let Some(place) = self.texts.get_index_of(upper) {
            return Ok(NameId(place as u32));
        }
        let place = self.texts.len();
        if place > u32::MAX as usize {
            return Err(Memory);
        }
        let text = String::from_str(self.alloc, upper)?;
        self.texts.insert(text)?;
        Ok(NameId(place as u32))
    }

    /// A copy with the same ids.
    pub fn copy(&self, alloc: Global) -> Result<Names, Memory>
        ensures { IfOk result (λ names. names ≡ self.now) }
    {
        let mut texts = IndexSet::new(alloc);
        for text in self.texts.as_slice() {
            texts.insert(text.clone()?)?;
        }
        Ok(Names { alloc, texts })
    }

    /// The text of an id, which is missing exactly where the id is not below the number of names.
    pub fn text(&self, id: NameId) -> Option<&str>
        ensures text { option_map (λ t. t.now) result ≡ slice_get self.now id.0 }
        ensures past_end { IsNone result ↔ (length self.now ≤ id.0) }
        ensures names { AreNames self.now }
    {
        self.texts
            .get_index(id.0 as usize)
            .map(|text| text.as_str())
    }
}

// The set of some texts, in their order, each once.
fn with_texts(alloc: Global, texts: &[&str]) -> Result<IndexSet<String>, Memory>
    ensures { IfOk result (λ s. map string_bytes s.keys ≡ fold interned [] (map (λ t. t.now) texts.now)) }
{
    let mut set = IndexSet::new(alloc);
    for text in texts {
        set.insert(String::from_str(alloc, text)?)?;
    }
    Ok(set)
}
