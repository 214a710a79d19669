// What stands around a place of a program.

ghost use Rattle.std.specs.Prelude.{◌≡◌, ◌≤◌, ◌∷◌, [], None, true, length, drop, option_map, reverse, OnOk, IfOk};
ghost use Rattle.syn_event.specs.CheckScope.{CheckScope, meaning};
ghost use Rattle.syn_event.specs.RuleAcceptPlace.{is_own_entry, is_among};
ghost use Rattle.syn_event.specs.CheckSites.{first_around, with_meant, own_unit, in_body, handling};
ghost use Rattle.ada_check_rules.specs.scopes.Around.{unit};
ghost use Rattle.ada_check_rules.specs.scopes.Nested.{IsWithin, IsOutside};

use ada_tree::{NameId, Span, Types, Word};
use scoped_names::ScopedNames;
use scoped_names::name_sets::NameSet;
use std::alloc::{AllocError, Global};
use std::marker::Model;
use std::mem;
use std::rc::Rc;
use syn_event::Meant;

/// A task or task type: its name and the names of its entries.
#[derive(Drop)]
struct OwnUnit {
    name: NameId,
    entries: Rc<NameSet>,
}

/// What stands around a place: the types of the program, what the names mean, the tasks and task types that are declared before with the names of their entries, the one in whose body the place is, the entries of the accepts around it, the names of the loops around it in the same accept, and whether it is in a handler.
#[derive(Drop)]
pub struct CheckScopes {
    alloc: Global,
    types: Types,
    names: ScopedNames<Meant>,
    units: ScopedNames<Rc<NameSet>>,
    own: Option<OwnUnit>,
    accepting: Vec<NameId>,
    loops: Vec<Option<NameId>>,
    in_handler: bool,
}

impl Model for CheckScopes {
    ghost use Rattle.std.specs.Prelude.{map, reverse, option_map};
    ghost use Rattle.syn_event.specs.CheckScope.{CheckScope};
    ghost use Rattle.ada_check_rules.specs.scopes.Around.{unit, unit_of_id};

    ghost Value = { CheckScope };

    ghost view = { λ a. record { types = a.types; names = a.names; units = map (λ s. unit_of_id s.0 s.1.value) a.units; own = option_map (λ u. unit u.name u.entries.value) a.own; accepting = reverse a.accepting.items; loops = reverse a.loops.items; in_handler = a.in_handler } };
}

/// What stood around an accept: how many names there were, and the loops.
#[derive(Drop)]
pub struct OutsideAccept {
    count: usize,
    loops: Vec<Option<NameId>>,
}

impl CheckScopes {
    /// What stands around the declarations of a program of these types and that name.
    pub fn new(alloc: Global, types: Types, name: Word) -> Result<Self, AllocError>
        ensures { IfOk result (λ around. around ≡ first_around types name) }
    {
        let mut names = ScopedNames::new(alloc);
        names.declare(name.name.0, Meant::MainProcedure)?;
        Ok(CheckScopes {
            alloc,
            types,
            names,
            units: ScopedNames::new(alloc),
            own: None,
            accepting: Vec::new(alloc),
            loops: Vec::new(alloc),
            in_handler: false,
        })
    }

    /// Where memory comes from.
    pub fn alloc(&self) -> Global {
        self.alloc
    }

    /// The types, marks and constants of the program.
    pub fn types(&self) -> &Types
        ensures { result.now ≡ self.now.types }
    {
        &self.types
    }

    /// The types, marks and constants of the program, with which this ends.
    pub fn into_types(self) -> Types
        ensures { result ≡ self.types }
    {
        self.types
    }

    /// What a name means, where it means something to these rules.
    pub fn meaning(&self, id: NameId) -> Option<Meant>
        ensures { result ≡ meaning self.now id }
    {
        self.names.meaning(id.0).copied()
    }

    /// The name of the task or task type in whose body the place is.
    pub fn own_name(&self) -> Option<NameId>
        ensures { result ≡ option_map (λ u. u.name) self.now.own }
    {
        match &self.own {
            Some(own) => Some(own.name),
            None => None,
        }
    }

    /// Whether the task in whose body the place is has an entry of that name.
    pub fn is_own_entry(&self, id: NameId) -> bool
        ensures { result ≡ is_own_entry self.now.own id }
    {
        match &self.own {
            Some(own) => own.entries.has(id),
            None => false,
        }
    }

    /// Whether the place is in an accept of that entry.
    pub fn is_accepting(&self, id: NameId) -> bool
        ensures { result ≡ is_among self.now.accepting id }
    {
        self.accepting.contains(&id)
    }

    /// The loops around the place in the same accept, the outermost first, by their names where they have one.
    pub fn loops(&self) -> &[Option<NameId>]
        ensures { reverse result.now ≡ self.now.loops }
    {
        &self.loops
    }

    /// Whether the place is in a handler.
    pub fn is_in_handler(&self) -> bool
        ensures { result ≡ self.now.in_handler }
    {
        self.in_handler
    }

    /// A name more.
    pub fn declare(&mut self, word: Word, meant: Meant) -> Result<(), AllocError>
        ensures { OnOk result (self.new ≡ with_meant meant self.old (word ∷ [])) }
    {
        self.names.declare(word.name.0, meant)
    }

    /// A task or task type more.
    pub fn add_unit(&mut self, id: NameId, entries: NameSet) -> Result<(), AllocError>
        ensures { OnOk result (self.new ≡ record self.old { units = unit id entries ∷ self.old.units }) }
    {
        match Rc::new(self.alloc, entries) {
            Ok(entries) => self.units.declare(id.0, entries),
            Err(_) => Err(AllocError),
        }
    }

    // The entries of a task or task type that is declared before; none where it is not.
    fn entries_of(&self, id: NameId) -> Result<Rc<NameSet>, AllocError>
        ensures { IfOk result (λ r. (span : Span) → own_unit self.now record { name = id; span = span } ≡ unit id r.value) }
    {
        match self.units.meaning(id.0) {
            Some(entries) => Ok(entries.clone()?),
            None => match Rc::new(self.alloc, NameSet::new(self.alloc)) {
                Ok(entries) => Ok(entries),
                Err(_) => Err(AllocError),
            },
        }
    }

    /// Enters the body of a task or task type. The answer is how many names there are.
    pub fn enter_body(&mut self, word: Word) -> Result<usize, AllocError>
        ensures around { OnOk result (self.new ≡ in_body self.old word) }
        ensures count { IfOk result (λ n. n ≡ length self.old.names) }
    {
        let entries = self.entries_of(word.name)?;
        self.own = Some(OwnUnit {
            name: word.name,
            entries,
        });
        Ok(self.names.len())
    }

    /// Leaves the body of a task or task type, and the names that were declared since there were so many.
    pub fn leave_body(&mut self, count: usize)
        requires { count ≤ length self.old.names }
        ensures { (s : CheckScope) → count ≡ length s.names → IsWithin self.old s → self.new ≡ record self.old { names = s.names; own = None } }
    {
        self.names.leave(self.names.len() - count);
        self.own = None;
    }

    /// Enters an accept of an entry.
    pub fn enter_accept(&mut self, entry: NameId) -> Result<OutsideAccept, AllocError>
        ensures around { OnOk result (self.new ≡ record self.old { accepting = entry ∷ self.old.accepting; loops = [] }) }
        ensures outside { IfOk result (IsOutside self.old) }
    {
        self.accepting.push(entry)?;
        let loops = mem::replace(&mut self.loops, Vec::new(self.alloc));
        Ok(OutsideAccept {
            count: self.names.len(),
            loops,
        })
    }

    /// Leaves an accept and its formals.
    pub fn leave_accept(&mut self, outside: OutsideAccept)
        requires { outside.count ≤ length self.old.names }
        ensures { (s : CheckScope) → IsOutside s outside → IsWithin self.old s → self.new ≡ record self.old { names = s.names; accepting = drop 1 self.old.accepting; loops = s.loops } }
    {
        self.names.leave(self.names.len() - outside.count);
        self.accepting.pop();
        self.loops = outside.loops;
    }

    /// Enters a loop, which may have a name. The answer is how many names are declared.
    pub fn enter_loop(&mut self, name: Option<Word>) -> Result<usize, AllocError>
        ensures around { OnOk result (self.new ≡ record self.old { loops = option_map (λ w. w.name) name ∷ self.old.loops }) }
        ensures count { IfOk result (λ n. n ≡ length self.old.names) }
    {
        let id = match name {
            Some(word) => Some(word.name),
            None => None,
        };
        self.loops.push(id)?;
        Ok(self.names.len())
    }

    /// Leaves a loop, and the names that were declared since there were so many.
    pub fn leave_loop(&mut self, count: usize)
        requires { count ≤ length self.old.names }
        ensures { (s : CheckScope) → count ≡ length s.names → IsWithin self.old s → self.new ≡ record self.old { names = s.names; loops = drop 1 self.old.loops } }
    {
        self.names.leave(self.names.len() - count);
        self.loops.pop();
    }

    /// Enters a handler. The answer is whether the place was in one.
    pub fn enter_handler(&mut self) -> bool
        ensures around { self.new ≡ handling self.old }
        ensures before { result ≡ self.old.in_handler }
    {
        let before = self.in_handler;
        self.in_handler = true;
        before
    }

    /// Leaves a handler.
    pub fn leave_handler(&mut self, before: bool)
        ensures { self.new ≡ record self.old { in_handler = before } }
    {
        self.in_handler = before;
    }
}
