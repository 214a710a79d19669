// The variables of one task.

ghost use Rattle.std.specs.Prelude.{◌≡◌, ◌∷◌, [], drop, length, option_map, slice_get, take, OnOk, OnErr};
ghost use Rattle.ada_value.specs.Variables.{object_named, object_with, set_value};
ghost use Rattle.task_links.specs.store.Plain.{plain_variable};
ghost use Rattle.task_links.specs.store.Latest.{with_latest};
ghost use Rattle.scoped_names.specs.Meaning.{meaning_in};
ghost use Rattle.task_links.specs.store.inner.Kept.{latest_of, object_at, slot_at, slot_of, set_there, IsWithin};

use crate::store::variables::Variable;
use ada_tree::{Memory, NameId};
use ada_value::{Form, Value};
use scoped_names::ScopedNames;
use std::alloc::Global;
use std::marker::Model;

// A variable as it is kept: its name, what it is, and where its values stand.
#[derive(Clone, Copy)]
pub(crate) struct Extent {
    name: NameId,
    form: Form,
    start: usize,
    end: usize,
}

/// The variables of one task. A contract sees the list of them, the latest first.
#[derive(Drop)]
pub struct Objects {
    names: ScopedNames<Extent>,
    values: Vec<Value>,
}

impl Model for Objects {
    ghost use Rattle.std.specs.Prelude.{length};
    ghost use Rattle.ada_value.specs.Variables.{Variables};
    ghost use Rattle.task_links.specs.store.inner.Kept.{objects_kept, AreKept};

    ghost Value = { Variables };

    ghost view = { λ a. objects_kept a.values.items a.names };

    ghost invariant = { λ a. AreKept a.names (length a.values.items) };
}

// The variable whose values stand in this part of the list.
fn variable_at<'a>(values: &'a [Value], extent: &Extent) -> Variable<'a>
    requires { IsWithin extent.now (length values.now) }
    ensures { plain_variable result ≡ object_at values.now extent.now }
{
    Variable {
        name: extent.name,
        form: extent.form,
        values: &values[extent.start..extent.end],
    }
}

// Where the value at a place of a variable stands, if there is such a place.
fn slot_in(extent: &Extent, place: usize) -> Option<usize>
    ensures { result ≡ slot_at extent.now place }
{
    let count = extent.end.saturating_sub(extent.start);
    if place < count {
        Some(extent.start + place)
    } else {
        None
    }
}

// Where the value at a place of the latest variable of a name stands.
fn slot_named(names: &ScopedNames<Extent>, id: NameId, place: usize) -> Option<usize>
    ensures { result ≡ slot_of (meaning_in names.now id.0) place }
{
    match names.meaning(id.0) {
        Some(extent) => slot_in(extent, place),
        None => None,
    }
}

// Where the first value of the latest variable stands.
fn latest_slot(names: &ScopedNames<Extent>) -> Option<usize>
    ensures { result ≡ slot_of (latest_of names.now) 0 }
{
    if names.len() > 0 {
        slot_in(names.at(0), 0)
    } else {
        None
    }
}

// Writes a value, where it stands anywhere.
fn write(values: &mut Vec<Value>, slot: Option<usize>, value: Value)
    ensures { values.new.items ≡ set_there values.old.items slot value }
{
    if let Some(slot) = slot {
        if slot < values.len() {
            values[slot] = value;
        }
    }
}

// Declares a variable whose values stand from a place on. After an error they are gone.
fn declare(
    names: &mut ScopedNames<Extent>,
    values: &mut Vec<Value>,
    name: NameId,
    form: Form,
    start: usize,
) -> Result<(), Memory>
    ensures ok { OnOk result (names.new ≡ (name.0, record { name = name; form = form; start = start; end = length values.old.items }) ∷ names.old) }
    ensures kept { OnOk result (values.new.items ≡ values.old.items) }
    ensures err { OnErr result (names.new ≡ names.old) }
    ensures cut { OnErr result (values.new.items ≡ take start values.old.items) }
{
    let extent = Extent {
        name,
        form,
        start,
        end: values.len(),
    };
    match names.declare(name.0, extent) {
        Ok(()) => Ok(()),
        Err(_) => {
            values.truncate(start);
            Err(Memory)
        }
    }
}

impl Objects {
    /// No variables.
    pub fn new(alloc: Global) -> Self
        ensures { result ≡ [] }
    {
        Objects {
            names: ScopedNames::new(alloc),
            values: Vec::new(alloc),
        }
    }

    /// How many variables there are.
    pub fn len(&self) -> usize
        ensures { result ≡ length self.now }
    {
        self.names.len()
    }

    /// The latest variable of a name (8.3).
    pub fn named<'a>(&'a self, id: NameId) -> Option<Variable<'a>>
        ensures { option_map plain_variable result ≡ object_named self.now id }
    {
        match self.names.meaning(id.0) {
            Some(extent) => Some(variable_at(&self.values, extent)),
            None => None,
        }
    }

    /// The variable at a place, where the latest one has place 0.
    pub fn at<'a>(&'a self, place: usize) -> Option<Variable<'a>>
        ensures { option_map plain_variable result ≡ slice_get self.now place }
    {
        if place < self.names.len() {
            Some(variable_at(&self.values, self.names.at(place)))
        } else {
            None
        }
    }

    /// Writes a value at a place of the latest variable of a name, from 0. Where there is no such variable or place nothing changes (5.2).
    pub fn set(&mut self, id: NameId, place: usize, value: Value)
        ensures { self.new ≡ set_value self.old id place value }
    {
        let slot = slot_named(&self.names, id, place);
        write(&mut self.values, slot, value);
    }

    /// Writes the first value of the latest variable, as that of a loop parameter (5.5). Where there is none nothing changes.
    pub fn set_latest(&mut self, value: Value)
        ensures { self.new ≡ with_latest self.old value }
    {
        let slot = latest_slot(&self.names);
        write(&mut self.values, slot, value);
    }

    /// One variable more, with these values. After an error, which comes by want of memory, the variables are as before.
    pub fn push(&mut self, name: NameId, form: Form, values: &[Value]) -> Result<(), Memory>
        ensures ok { OnOk result (self.new ≡ object_with name form values.now ∷ self.old) }
        ensures err { OnErr result (self.new ≡ self.old) }
    {
        let start = self.values.len();
        self.values.extend_from_slice(values)?;
        declare(&mut self.names, &mut self.values, name, form, start)
    }

    /// The variables without the latest one.
    pub fn forget(&mut self)
        ensures { self.new ≡ drop 1 self.old }
    {
        if self.names.len() > 0 {
            let start = self.names.at(0).start;
            self.names.forget();
            self.values.truncate(start);
        }
    }

    /// The variables without so many of the latest ones.
    pub fn leave(&mut self, count: usize)
        ensures { self.new ≡ drop count self.old }
    {
        for _ in 0..count {
            self.forget();
        }
    }
}
