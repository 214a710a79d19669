// What names mean, as plain data.

ghost use Rattle.std.specs.Prelude.{◌≡◌, ◌==◌, [], ℕ, nat_eq, position, map, option_map, slice_get, is_some, IfOk, OnOk};
ghost use Rattle.std.specs.HashMap.{get};
ghost use Rattle.std.specs.Option.{unwrap_or};
ghost use Rattle.ada_static_rules.specs.StaticValue.{first_of_two};
ghost use Rattle.ada_static_rules.specs.Scope.{entry_named, entries_of};
ghost use Rattle.ada_static_rules.specs.Declaring.{constant_mark};
ghost use Rattle.ada_static_rules.specs.Sites.{is_task_object};
ghost use Rattle.ada_scopes.specs.Denotations.{plain_thing};
ghost use Rattle.ada_scopes.specs.Entries.{plain_entry};

use crate::table::keep_first;
use ada_tree::{NameId, ParMode};
use std::alloc::{AllocError, Global};
use std::collections::HashMap;
use std::marker::Model;
use std::rc::Rc;

/// The kind and the bounds of a discrete range.
#[derive(Clone, Copy)]
pub struct Range {
    pub kind: u32,
    pub first: i64,
    pub last: i64,
}

/// The members of an entry: one, those of a range, or those of a range that is refused.
#[derive(Clone, Copy)]
pub enum Family {
    Single,
    Over(Range),
    Unclear,
}

/// A formal parameter, with the kind of its mark where that is a scalar one.
#[derive(Clone, Copy)]
pub struct FormalPart {
    pub name: NameId,
    pub mode: ParMode,
    pub mark: NameId,
    pub kind: Option<u32>,
}

#[derive(Drop)]
pub struct EntryPart {
    pub name: NameId,
    pub family: Family,
    pub formals: Vec<FormalPart>,
}

/// The entries of a task, and the place of the first of each name. A contract sees their list.
#[derive(Drop)]
pub struct Entries {
    parts: Vec<EntryPart>,
    places: HashMap<u32, usize>,
}

impl Model for Entries {
    ghost use Rattle.std.specs.Prelude.{List, map};
    ghost use Rattle.ada_static_rules.specs.Scope.{EntryPart};
    ghost use Rattle.ada_scopes.specs.Entries.{plain_entry, ArePlaced};

    ghost Value = { List EntryPart };

    ghost view = { λ a. map plain_entry a.parts.items };

    ghost invariant = { λ a. ArePlaced a.parts.items a.places };
}

// Keeps the places of the first entries of each name among these.
#[tactic(auto, using(crate::proofs::Keeping::keeping))]
fn keep_places(map: &mut HashMap<u32, usize>, parts: &[EntryPart]) -> Result<(), AllocError>
    ensures { OnOk result ((q : ℕ) → get nat_eq map.new q ≡ first_of_two (get nat_eq map.old q) (position (λ e. e.name.0 == q) parts.now)) }
{
    for (place, part) in parts.iter().enumerate() {
        keep_first(map, part.name.0, place)?;
    }
    Ok(())
}

// The entry at a place.
fn part_at(parts: &[EntryPart], place: usize) -> Option<&EntryPart>
    ensures { option_map (λ e. e.now) result ≡ slice_get parts.now place }
{
    parts.get(place)
}

impl Entries {
    /// These entries.
    pub fn new(alloc: Global, parts: Vec<EntryPart>) -> Result<Self, AllocError>
        ensures { IfOk result (λ entries. entries ≡ map plain_entry parts.items) }
    {
        let mut places = HashMap::new(alloc);
        keep_places(&mut places, parts.as_slice())?;
        Ok(Entries { parts, places })
    }

    /// The entry of a name.
    pub fn named(&self, id: NameId) -> Option<&EntryPart>
        ensures { option_map (λ e. plain_entry e.now) result ≡ entry_named self.now id }
    {
        match self.places.get(&id.0) {
            Some(place) => part_at(self.parts.as_slice(), *place),
            None => None,
        }
    }
}

/// What a name means. The numbers are places of kinds and marks.
#[derive(Drop)]
pub enum Thing {
    TypeMark(u32),
    TaskType(Rc<Entries>),
    SingleTask(Rc<Entries>),
    TaskObject(Rc<Entries>),
    TaskArray(Range, Rc<Entries>),
    Variable(u32),
    ConstantObject(u32),
    Parameter(ParMode, u32),
    LoopParameter(u32),
    Literal(u32),
    AnException,
    MainProcedure,
    AnotherUnit,
    Unclear,
}

impl Thing {
    /// The entries of what is a task, a task type or an array of tasks.
    fn entries(&self) -> Option<&Entries>
        ensures { unwrap_or (option_map (λ e. e.now) result) [] ≡ entries_of (plain_thing self.now) }
    {
        match self {
            Thing::TaskType(entries) => Some(&**entries),
            Thing::SingleTask(entries) => Some(&**entries),
            Thing::TaskObject(entries) => Some(&**entries),
            Thing::TaskArray(_, entries) => Some(&**entries),
            _ => None,
        }
    }

    /// Whether it has an entry of that name.
    pub fn has_entry(&self, id: NameId) -> bool
        ensures { result ≡ is_some (entry_named (entries_of (plain_thing self.now)) id) }
    {
        match self.entries() {
            Some(entries) => entries.named(id).is_some(),
            None => false,
        }
    }

    /// The same thing, for another name of its declaration.
    pub fn shared(&self) -> Result<Thing, AllocError>
        ensures { IfOk result (λ thing. plain_thing thing ≡ plain_thing self.now) }
    {
        Ok(match self {
            Thing::TypeMark(mark) => Thing::TypeMark(*mark),
            Thing::TaskType(entries) => Thing::TaskType(entries.clone()?),
            Thing::SingleTask(entries) => Thing::SingleTask(entries.clone()?),
            Thing::TaskObject(entries) => Thing::TaskObject(entries.clone()?),
            Thing::TaskArray(range, entries) => Thing::TaskArray(*range, entries.clone()?),
            Thing::Variable(mark) => Thing::Variable(*mark),
            Thing::ConstantObject(mark) => Thing::ConstantObject(*mark),
            Thing::Parameter(mode, mark) => Thing::Parameter(*mode, *mark),
            Thing::LoopParameter(mark) => Thing::LoopParameter(*mark),
            Thing::Literal(kind) => Thing::Literal(*kind),
            Thing::AnException => Thing::AnException,
            Thing::MainProcedure => Thing::MainProcedure,
            Thing::AnotherUnit => Thing::AnotherUnit,
            Thing::Unclear => Thing::Unclear,
        })
    }

    /// Whether it is a task object or an array of them.
    pub fn is_task_object(&self) -> bool
        ensures { result ≡ is_task_object (plain_thing self.now) }
    {
        match self {
            Thing::TaskObject(_) | Thing::TaskArray(_, _) => true,
            _ => false,
        }
    }

    /// The mark of a constant.
    pub fn constant_mark(&self) -> Option<u32>
        ensures { result ≡ constant_mark (plain_thing self.now) }
    {
        match self {
            Thing::ConstantObject(mark) => Some(*mark),
            _ => None,
        }
    }
}
