// What can be used at a place of a program.

ghost use Rattle.std.specs.Prelude.{◌≡◌, ◌≤◌, ◌∷◌, [], true, false, length, option_map, IfOk, OnOk, OnErr};
ghost use Rattle.ada_static_rules.specs.Scope.{is_entry_somewhere, meaning, Scope as PlainScope};
ghost use Rattle.ada_static_rules.specs.Declaring.{before_all, with_name, with_types, inner_scope, add_mark, add_kind};
ghost use Rattle.ada_scopes.specs.Denotations.{plain_thing};
ghost use Rattle.ada_scopes.specs.Makings.{add_constant};
ghost use Rattle.ada_scopes.specs.Nested.{IsOuter, IsOutside, IsWithin};

use crate::denotations::{Entries, Thing};
use crate::predefined::{first_names, first_table};
use crate::table::Table;
use ada_tree::{Constant, Kind, Mark, NameId, Types, Word};
use scoped_names::ScopedNames;
use std::alloc::{AllocError, Global};
use std::collections::HashMap;
use std::marker::Model;
use std::mem;
use std::rc::Rc;

/// What can be used at a place: the types, the names with what they mean, of which the first `base` stand before the innermost scope, whether the place is in main outside all bodies, the entries of the task in whose body it is, the tasks whose bodies are declared before, and whether an instance of INTEGER_IO is. For the name of an entry, `hints` has the place of a name that should have such an entry, counted from the first name; a contract sees nothing of it, since no answer depends on it.
#[derive(Drop)]
pub struct Scope {
    table: Table,
    names: ScopedNames<Thing>,
    hints: HashMap<u32, usize>,
    base: usize,
    in_main: bool,
    own: Rc<Entries>,
    bodies: Vec<u32>,
    has_instance: bool,
}

impl Model for Scope {
    ghost use Rattle.std.specs.Prelude.{map, take, reverse, length, ◌-◌, ◌≤◌};
    ghost use Rattle.ada_static_rules.specs.Scope.{Scope};
    ghost use Rattle.ada_scopes.specs.Denotations.{plain_names};

    ghost Value = { Scope };

    ghost view = { λ a. record { types = a.table; names = plain_names a.names; here = map (λ s. s.0) (take (length a.names - a.base) a.names); in_main = a.in_main; own = a.own.value; bodies = reverse a.bodies.items; has_instance = a.has_instance } };

    ghost invariant = { λ a. a.base ≤ length a.names };
}

/// A scope in which another one is entered: how many names there are, and how many of these stand before it.
#[derive(Clone, Copy)]
pub struct Outer {
    base: usize,
    count: usize,
}

/// What is left for a task body: its names, whether it was in main, and the entries of the task in whose body it was.
#[derive(Drop)]
pub struct Outside {
    outer: Outer,
    in_main: bool,
    own: Rc<Entries>,
}

impl Scope {
    /// What can be used before a program begins.
    pub fn new(alloc: Global) -> Result<Self, AllocError>
        ensures { IfOk result (λ scope. scope ≡ before_all) }
    {
        let table = first_table(alloc)?;
        let names = first_names(alloc)?;
        let entries = Entries::new(alloc, Vec::new(alloc))?;
        match Rc::new(alloc, entries) {
            Ok(own) => Ok(Scope {
                table,
                base: names.len(),
                names,
                hints: HashMap::new(alloc),
                in_main: true,
                own,
                bodies: Vec::new(alloc),
                has_instance: false,
            }),
            Err(_) => Err(AllocError),
        }
    }

    /// What a name means, which is nothing where it is not declared before.
    pub fn meaning(&self, id: NameId) -> Option<&Thing>
        ensures { option_map (λ t. plain_thing t.now) result ≡ meaning self.now id }
    {
        self.names.meaning(id.0)
    }

    /// Whether the place is in main, outside all bodies.
    pub fn is_in_main(&self) -> bool
        ensures { result ≡ self.now.in_main }
    {
        self.in_main
    }

    // Whether the name at which there is a hint for an entry has it.
    fn is_at_hint(&self, id: NameId) -> bool
        ensures { result ≡ true → is_entry_somewhere self.now id ≡ true }
    {
        if let Some(hint) = self.hints.get(&id.0) {
            let count = self.names.len();
            if *hint < count && self.names.at(count - 1 - *hint).has_entry(id) {
                return true;
            }
        }
        false
    }

    /// Whether a task, a task type or an array of tasks that is declared before has an entry of that name.
    pub fn is_entry_somewhere(&self, id: NameId) -> bool
        ensures { result ≡ is_entry_somewhere self.now id }
    {
        if self.is_at_hint(id) {
            return true;
        }
        for place in 0..self.names.len() {
            if self.names.at(place).has_entry(id) {
                return true;
            }
        }
        false
    }

    /// The types, marks and constants.
    pub fn table(&self) -> &Table
        ensures { result.now ≡ self.now.types }
    {
        &self.table
    }

    /// The entries of the task in whose body the place is.
    pub fn own(&self) -> &Entries
        ensures { result.now ≡ self.now.own }
    {
        &*self.own
    }

    /// The name that is declared next has an entry of that name.
    pub fn hint(&mut self, entry: NameId) -> Result<(), AllocError>
        ensures { OnOk result (self.new ≡ self.old) }
    {
        self.hints.insert(entry.0, self.names.len())?;
        Ok(())
    }

    /// A name more in the innermost scope.
    pub fn declare(&mut self, word: Word, thing: Thing) -> Result<(), AllocError>
        ensures ok { OnOk result (self.new ≡ with_name (plain_thing thing) self.old word) }
        ensures err { OnErr result (self.new ≡ self.old) }
    {
        self.names.declare(word.name.0, thing)
    }

    /// Enters an inner scope, in which no name is declared yet.
    pub fn enter(&mut self) -> Outer
        ensures scope { self.new ≡ inner_scope self.old }
        ensures outer { IsOuter self.old result }
    {
        let outer = Outer {
            base: self.base,
            count: self.names.len(),
        };
        self.base = outer.count;
        outer
    }

    /// Leaves the scopes that were entered from an outer one on: its names are left, and what else there is stays.
    pub fn leave(&mut self, outer: Outer)
        requires within { outer.count ≤ length self.old.names }
        requires ordered { outer.base ≤ outer.count }
        ensures { (s : PlainScope) → IsOuter s outer → IsWithin self.old s → self.new ≡ record self.old { names = s.names; here = s.here } }
    {
        self.names.leave(self.names.len() - outer.count);
        self.base = outer.base;
    }

    /// Enters the body of a task with these entries, in which no name is declared yet.
    pub fn enter_body(&mut self, own: Rc<Entries>) -> Outside
        ensures scope { self.new ≡ record self.old { here = []; in_main = false; own = own.value } }
        ensures outside { IsOutside self.old result }
    {
        let outer = self.enter();
        let in_main = self.in_main;
        self.in_main = false;
        Outside {
            outer,
            in_main,
            own: mem::replace(&mut self.own, own),
        }
    }

    /// Leaves a task body for what is outside it. The task has its body then, and what is in the table stays.
    pub fn leave_body(&mut self, outside: Outside, name: Word) -> Result<(), AllocError>
        requires within { outside.outer.count ≤ length self.old.names }
        requires ordered { outside.outer.base ≤ outside.outer.count }
        ensures { OnOk result ((s : PlainScope) → IsOutside s outside → IsWithin self.old s → self.new ≡ record s { types = self.old.types; bodies = name.name.0 ∷ self.old.bodies; has_instance = self.old.has_instance }) }
    {
        self.bodies.push(name.name.0)?;
        self.leave(outside.outer);
        self.in_main = outside.in_main;
        self.own = outside.own;
        Ok(())
    }

    /// There is an instance of INTEGER_IO.
    pub fn make_instance(&mut self)
        ensures { self.new ≡ record self.old { has_instance = true } }
    {
        self.has_instance = true;
    }

    /// The types, marks and constants, where no name is asked for any more.
    pub fn into_types(self) -> Types
        ensures { result ≡ self.types }
    {
        let Scope { table, .. } = self;
        table.into_types()
    }

    /// The scope with a mark more in its table.
    pub fn with_mark(self, mark: Mark) -> Result<Scope, AllocError>
        ensures { IfOk result (λ scope. scope ≡ with_types (add_mark self.types mark) self) }
    {
        let table = self.table.with_mark(mark)?;
        Ok(Scope { table, ..self })
    }

    /// The scope with a kind more in its table.
    pub fn with_kind(self, kind: Kind) -> Result<Scope, AllocError>
        ensures { IfOk result (λ scope. scope ≡ with_types (add_kind self.types kind) self) }
    {
        let table = self.table.with_kind(kind)?;
        Ok(Scope { table, ..self })
    }

    /// The scope with a named number or constant more in its table.
    pub fn with_constant(self, constant: Constant) -> Result<Scope, AllocError>
        ensures { IfOk result (λ scope. scope ≡ with_types (add_constant self.types constant) self) }
    {
        let table = self.table.with_constant(constant)?;
        Ok(Scope { table, ..self })
    }
}
