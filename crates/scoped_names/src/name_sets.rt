//! Sets of names. A look-up takes one step.

ghost use Rattle.std.specs.Prelude.{◌≡◌, ◌==◌, ◌∷◌, [], OnOk};
ghost use Rattle.std.specs.List.{list_any};
ghost use Rattle.ada_static_rules.specs.RuleDuplicate.{is_among};
ghost use Rattle.scoped_names.specs.name_sets.Numbers.{numbers_in};

use crate::ScopedNames;
use ada_tree::NameId;
use std::alloc::{AllocError, Global};
use std::marker::Model;

/// A set of names. A contract sees the list of what was put in, the latest first.
#[derive(Drop)]
pub struct NameSet {
    names: ScopedNames<()>,
}

impl Model for NameSet {
    ghost use Rattle.std.specs.Prelude.{List, map};
    ghost use Rattle.ada_tree.specs.declared.naming.NameId.{NameId};
    ghost use Rattle.scoped_names.specs.name_sets.Numbers.{id_of};

    ghost Value = { List NameId };

    ghost view = { λ a. map (λ s. id_of s.0) a.names };
}

impl NameSet {
    /// No names.
    pub fn new(alloc: Global) -> Self
        ensures { result ≡ [] }
    {
        NameSet {
            names: ScopedNames::new(alloc),
        }
    }

    /// Whether a name is in the set: said of the names, and of their numbers.
    pub fn has(&self, name: NameId) -> bool
        ensures named { result ≡ list_any (λ n. n.0 == name.0) self.now }
        ensures numbered { result ≡ is_among (numbers_in self.now) name.0 }
    {
        self.names.meaning(name.0).is_some()
    }

    /// Puts a name in.
    pub fn add(&mut self, name: NameId) -> Result<(), AllocError>
        ensures { OnOk result (self.new ≡ name ∷ self.old) }
    {
        self.names.declare(name.0, ())
    }
}
