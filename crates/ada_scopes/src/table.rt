// The table of types, marks and constants as it grows, in which a name is looked up in one step.

ghost use Rattle.std.specs.Prelude.{◌≡◌, ◌==◌, [], ℕ, nat_eq, length, position, option_map, Some, None, if◌then◌else◌, IfOk, OnOk};
ghost use Rattle.std.specs.HashMap.{get};
ghost use Rattle.ada_tree.specs.declared.naming.NameId.{NameId};
ghost use Rattle.ada_static_rules.specs.StaticValue.{mark_named, value_named, position_in, first_of_two};
ghost use Rattle.ada_static_rules.specs.Scope.{kind_at, mark_at};
ghost use Rattle.ada_static_rules.specs.Declaring.{add_mark, add_kind, first_mark_of};
ghost use Rattle.ada_scopes.specs.Makings.{add_constant};

use ada_tree::{Constant, Kind, Mark, NameId, Types};
use std::alloc::{AllocError, Global};
use std::collections::HashMap;
use std::marker::Model;

/// The types, marks and constants that are declared so far. A contract sees them as those of `Types`.
#[derive(Drop)]
pub struct Table {
    types: Types,
    constants: HashMap<u32, Constant>,
    literals: HashMap<u32, u32>,
    named: HashMap<u32, Mark>,
    firsts: HashMap<u32, u32>,
}

impl Model for Table {
    ghost use Rattle.ada_tree.specs.TypeTable.{TypeTable};
    ghost use Rattle.ada_scopes.specs.inner.Mapped.{Mapped};

    ghost Value = { TypeTable };

    ghost view = { λ a. a.types };

    ghost invariant = { λ a. Mapped a.types a.constants a.literals a.named a.firsts };
}

// A place among kinds, marks or literals, for which there is no room from 2 ^ 32 on.
fn place_of(count: usize) -> Result<u32, AllocError>
    ensures { IfOk result (λ place. place ≡ count) }
{
    match u32::try_from(count) {
        Ok(place) => Ok(place),
        Err(_) => Err(AllocError),
    }
}

/// Keeps something for a number, unless something is kept for it.
#[tactic(auto, using(crate::proofs::Keeping::keeping))]
pub(crate) fn keep_first<T: Copy>(
    map: &mut HashMap<u32, T>,
    key: u32,
    value: T,
) -> Result<(), AllocError>
    ensures { OnOk result ((q : ℕ) → get nat_eq map.new q ≡ first_of_two (get nat_eq map.old q) (if key == q then Some value else None)) }
{
    if map.contains_key(&key) {
        return Ok(());
    }
    match map.insert(key, value) {
        Ok(_) => Ok(()),
        Err(_) => Err(AllocError),
    }
}

// Keeps the positions of the literals among these.
#[tactic(auto, using(crate::proofs::Keeping::keeping))]
fn keep_literals(map: &mut HashMap<u32, u32>, names: &[NameId]) -> Result<(), AllocError>
    ensures { OnOk result ((q : ℕ) → get nat_eq map.new q ≡ first_of_two (get nat_eq map.old q) (position (λ n. n.0 == q) names.now)) }
{
    for (position, name) in names.iter().enumerate() {
        keep_first(map, name.0, place_of(position)?)?;
    }
    Ok(())
}

// Keeps the positions of the literals of a kind, where it is an enumeration.
#[tactic(auto, using(crate::proofs::Keeping::keeping))]
fn keep_positions(map: &mut HashMap<u32, u32>, kind: &Kind) -> Result<(), AllocError>
    ensures { OnOk result ((id : NameId) → get nat_eq map.new id.0 ≡ first_of_two (get nat_eq map.old id.0) (position_in id kind.now)) }
{
    match kind {
        Kind::Enumeration { literals } => keep_literals(map, literals.as_slice()),
        _ => Ok(()),
    }
}

impl Table {
    /// No types, marks and constants.
    pub fn new(alloc: Global) -> Self
        ensures { result ≡ record { kinds = []; marks = []; constants = [] } }
    {
        Table {
            types: Types {
                kinds: Vec::new(alloc),
                marks: Vec::new(alloc),
                constants: Vec::new(alloc),
            },
            constants: HashMap::new(alloc),
            literals: HashMap::new(alloc),
            named: HashMap::new(alloc),
            firsts: HashMap::new(alloc),
        }
    }

    pub fn types(&self) -> &Types
        ensures { result.now ≡ self.now }
    {
        &self.types
    }

    /// The types, marks and constants, where nothing is looked up any more.
    pub fn into_types(self) -> Types
        ensures { result ≡ self }
    {
        let Table { types, .. } = self;
        types
    }

    /// The kind at a place.
    pub fn kind(&self, place: u32) -> Option<&Kind>
        ensures { option_map (λ k. k.now) result ≡ kind_at self.now place }
    {
        self.types.kinds.get(place as usize)
    }

    /// The mark at a place.
    pub fn mark(&self, place: u32) -> Option<Mark>
        ensures { result ≡ mark_at self.now place }
    {
        self.types.marks.get(place as usize).copied()
    }

    /// The type or subtype of a name.
    pub fn mark_of(&self, id: NameId) -> Option<Mark>
        ensures { result ≡ mark_named self.now id }
    {
        self.named.get(&id.0).copied()
    }

    /// The value that a name stands for: that of FALSE or TRUE, of a named number or constant, or of an enumeration literal.
    pub fn value_of(&self, id: NameId) -> Option<i64>
        ensures { result ≡ value_named self.now id }
    {
        if id == NameId::FALSE || id == NameId::TRUE {
            return Some(if id == NameId::TRUE { 1 } else { 0 });
        }
        if let Some(constant) = self.constants.get(&id.0) {
            return Some(constant.value as i64);
        }
        match self.literals.get(&id.0) {
            Some(place) => Some(*place as i64),
            None => None,
        }
    }

    /// The place of the first mark of a kind.
    pub fn first_mark(&self, kind: u32) -> Option<u32>
        ensures { result ≡ first_mark_of self.now kind }
    {
        self.firsts.get(&kind).copied()
    }

    /// The place that the next kind gets.
    pub fn next_kind(&self) -> Result<u32, AllocError>
        ensures { IfOk result (λ place. place ≡ length self.now.kinds) }
    {
        place_of(self.types.kinds.len())
    }

    /// The place that the next mark gets.
    pub fn next_mark(&self) -> Result<u32, AllocError>
        ensures { IfOk result (λ place. place ≡ length self.now.marks) }
    {
        place_of(self.types.marks.len())
    }

    /// The table with a kind more.
    pub fn with_kind(self, kind: Kind) -> Result<Table, AllocError>
        ensures { IfOk result (λ table. table ≡ add_kind self kind) }
    {
        let Table {
            mut types,
            constants,
            mut literals,
            named,
            firsts,
        } = self;
        keep_positions(&mut literals, &kind)?;
        types.kinds.push(kind)?;
        Ok(Table {
            types,
            constants,
            literals,
            named,
            firsts,
        })
    }

    /// The table with a mark more.
    #[tactic(auto, using(crate::proofs::Keeping::keeping))]
    pub fn with_mark(self, mark: Mark) -> Result<Table, AllocError>
        ensures { IfOk result (λ table. table ≡ add_mark self mark) }
    {
        let Table {
            mut types,
            constants,
            literals,
            mut named,
            mut firsts,
        } = self;
        keep_first(&mut firsts, mark.kind, place_of(types.marks.len())?)?;
        if let Some(name) = mark.name {
            keep_first(&mut named, name.0, mark)?;
        }
        types.marks.push(mark)?;
        Ok(Table {
            types,
            constants,
            literals,
            named,
            firsts,
        })
    }

    /// The table with a named number or constant more.
    #[tactic(auto, using(crate::proofs::Keeping::keeping))]
    pub fn with_constant(self, constant: Constant) -> Result<Table, AllocError>
        ensures { IfOk result (λ table. table ≡ add_constant self constant) }
    {
        let Table {
            mut types,
            mut constants,
            literals,
            named,
            firsts,
        } = self;
        keep_first(&mut constants, constant.name.0, constant)?;
        types.constants.push(constant)?;
        Ok(Table {
            types,
            constants,
            literals,
            named,
            firsts,
        })
    }
}
