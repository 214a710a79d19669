// What names mean in the table of types.

ghost use Rattle.std.specs.Prelude.{◌≡◌, ◌==◌, ℕ, pos, nat_eq, find, position, option_map, Some, None, if◌then◌else◌, IfOk, OnOk};
ghost use Rattle.std.specs.HashMap.{get};
ghost use Rattle.ada_tree.specs.declared.naming.NameId.{NameId};
ghost use Rattle.ada_static_rules.specs.StaticValue.{first_of_two, is_named, mark_named, position_in};
ghost use Rattle.ada_value.specs.Values.{limits_named, limits_of_kind, placed, word};
ghost use Rattle.ada_value.specs.Evaluating.{constant_value, fixed_value, literal_value};

use crate::keeping::keep_first;
use ada_tree::{Constant, Kind, Mark, Memory, NameId, Types};
use ada_value::{Limits, Value, constant_value, integer_limits, limits_of, word};
use std::alloc::Global;
use std::collections::HashMap;
use std::marker::Model;

/// The table of types with what its names mean. A contract sees the table.
#[derive(Drop)]
pub struct TypeNames<'p> {
    types: &'p Types,
    values: HashMap<u32, Value>,
    marks: HashMap<u32, Mark>,
    firsts: HashMap<u32, Mark>,
}

impl<'p> Model for TypeNames<'p> {
    ghost use Rattle.ada_tree.specs.TypeTable.{TypeTable};
    ghost use Rattle.task_links.specs.inner.Made.{KeepsTypes};

    ghost Value = { TypeTable };

    ghost view = { λ a. a.types.now };

    ghost invariant = { λ a. KeepsTypes a.types.now a.values a.marks a.firsts };
}

// Keeps the values of the named numbers and constants among these.
#[tactic(auto, using(crate::proofs::KeepingLemmas::keeping))]
fn keep_constants(
    map: &mut HashMap<u32, Value>,
    types: &Types,
    constants: &[Constant],
) -> Result<(), Memory>
    ensures { OnOk result ((id : NameId) → get nat_eq map.new id.0 ≡ first_of_two (get nat_eq map.old id.0) (option_map (constant_value types.now) (find (λ c. c.name.0 == id.0) constants.now))) }
{
    for constant in constants {
        keep_first(map, constant.name.0, constant_value(types, *constant))?;
    }
    Ok(())
}

// Keeps the values of the literals of an enumeration, whose kind has this place.
#[tactic(auto, using(crate::proofs::KeepingLemmas::keeping))]
fn keep_literals(map: &mut HashMap<u32, Value>, kind: u32, names: &[NameId]) -> Result<(), Memory>
    ensures { OnOk result ((id : NameId) → get nat_eq map.new id.0 ≡ first_of_two (get nat_eq map.old id.0) (option_map (λ n. placed kind (pos n)) (position (λ n. n.0 == id.0) names.now))) }
{
    for (place, name) in names.iter().enumerate() {
        let value = Value::Place {
            kind,
            pos: word(place as u64),
        };
        keep_first(map, name.0, value)?;
    }
    Ok(())
}

// Keeps the values of the literals of a kind at a place, where it is an enumeration.
#[tactic(auto, using(crate::proofs::KeepingLemmas::keeping))]
fn keep_kind(map: &mut HashMap<u32, Value>, place: usize, kind: &Kind) -> Result<(), Memory>
    ensures { OnOk result ((id : NameId) → get nat_eq map.new id.0 ≡ first_of_two (get nat_eq map.old id.0) (option_map (λ n. placed (word place) (pos n)) (position_in id kind.now))) }
{
    match kind {
        Kind::Enumeration { literals } => keep_literals(
            map,
            word(place as u64),
            literals.as_slice(),
        ),
        _ => Ok(()),
    }
}

// Keeps the values of all enumeration literals.
#[tactic(auto, using(crate::proofs::KeepingLemmas::keeping))]
fn keep_kinds(map: &mut HashMap<u32, Value>, kinds: &[Kind]) -> Result<(), Memory>
    ensures { OnOk result ((id : NameId) → get nat_eq map.new id.0 ≡ first_of_two (get nat_eq map.old id.0) (literal_value kinds.now 0 id)) }
{
    for (place, kind) in kinds.iter().enumerate() {
        keep_kind(map, place, kind)?;
    }
    Ok(())
}

// Keeps the mark of its name, where it has one.
#[tactic(auto, using(crate::proofs::KeepingLemmas::keeping))]
fn keep_mark(map: &mut HashMap<u32, Mark>, mark: Mark) -> Result<(), Memory>
    ensures { OnOk result ((id : NameId) → get nat_eq map.new id.0 ≡ first_of_two (get nat_eq map.old id.0) (if is_named id mark.name then Some mark else None)) }
{
    match mark.name {
        Some(name) => keep_first(map, name.0, mark),
        None => Ok(()),
    }
}

// Keeps the types and subtypes by their names.
#[tactic(auto, using(crate::proofs::KeepingLemmas::keeping))]
fn keep_marks(map: &mut HashMap<u32, Mark>, marks: &[Mark]) -> Result<(), Memory>
    ensures { OnOk result ((id : NameId) → get nat_eq map.new id.0 ≡ first_of_two (get nat_eq map.old id.0) (find (λ m. is_named id m.name) marks.now)) }
{
    for mark in marks {
        keep_mark(map, *mark)?;
    }
    Ok(())
}

// Keeps the first mark of each kind.
#[tactic(auto, using(crate::proofs::KeepingLemmas::keeping))]
fn keep_firsts(map: &mut HashMap<u32, Mark>, marks: &[Mark]) -> Result<(), Memory>
    ensures { OnOk result ((k : ℕ) → get nat_eq map.new k ≡ first_of_two (get nat_eq map.old k) (find (λ m. m.kind == k) marks.now)) }
{
    for mark in marks {
        keep_first(map, mark.kind, *mark)?;
    }
    Ok(())
}

impl<'p> TypeNames<'p> {
    /// The names of a table of types.
    pub fn new(alloc: Global, types: &'p Types) -> Result<Self, Memory>
        ensures { IfOk result (λ names. names ≡ types.now) }
    {
        let mut values = HashMap::new(alloc);
        keep_constants(&mut values, types, &types.constants)?;
        keep_kinds(&mut values, &types.kinds)?;
        let mut marks = HashMap::new(alloc);
        keep_marks(&mut marks, &types.marks)?;
        let mut firsts = HashMap::new(alloc);
        keep_firsts(&mut firsts, &types.marks)?;
        Ok(TypeNames {
            types,
            values,
            marks,
            firsts,
        })
    }

    /// The table of types.
    pub fn types(&self) -> &Types
        ensures { result.now ≡ self.now }
    {
        self.types
    }

    /// The value of a name that is no variable: of FALSE or TRUE, of a named number or constant, or of an enumeration literal; of another name it is 0.
    pub fn fixed_value(&self, name: NameId) -> Value
        ensures { result ≡ fixed_value self.now name }
    {
        if name == NameId::FALSE || name == NameId::TRUE {
            return Value::Truth(name == NameId::TRUE);
        }
        match self.values.get(&name.0) {
            Some(value) => *value,
            None => Value::Number(0),
        }
    }

    /// The subtype of a name; of a name that is no mark it is INTEGER.
    pub fn limits_named(&self, name: NameId) -> Limits
        ensures { result ≡ limits_named self.now name }
    {
        match self.marks.get(&name.0) {
            Some(mark) => limits_of(*mark),
            None => integer_limits(),
        }
    }

    /// The subtype of all values of a kind, which is that of its first mark.
    pub fn limits_of_kind(&self, kind: u32) -> Limits
        ensures { result ≡ limits_of_kind self.now kind }
    {
        match self.firsts.get(&kind) {
            Some(mark) => limits_of(*mark),
            None => integer_limits(),
        }
    }

    /// The type or subtype of a name.
    pub fn mark_named(&self, name: NameId) -> Option<Mark>
        ensures { result ≡ mark_named self.now name }
    {
        self.marks.get(&name.0).copied()
    }
}
