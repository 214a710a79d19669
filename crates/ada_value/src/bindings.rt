//! The variables of an expression, as scopes of names with their values.

ghost use Rattle.std.specs.Prelude.{◌≡◌, ◌==◌, find, reverse, option_copied};
ghost use Rattle.ada_value.specs.inner.Bindings.{latest_first};

use crate::Value;
use ada_tree::NameId;
use std::marker::Model;

/// The scopes in which an expression stands, the innermost last. A contract sees the list of the lists of their bindings.
#[derive(Drop)]
pub struct Vars {
    pub scopes: Vec<Scope>,
}

impl Model for Vars {
    ghost use Rattle.std.specs.Prelude.{List};
    ghost use Rattle.ada_value.specs.inner.Bindings.{Bound};

    ghost Value = { List (List Bound) };

    ghost view = { λ a. a.scopes.items };
}

// The innermost and latest binding of a name among scopes that stand with the innermost last (8.3).
fn latest_in(scopes: &[Scope], name: NameId) -> Option<&Binding>
    ensures { option_copied result ≡ find (λ b. b.name.0 == name.0) (latest_first scopes.now) }
{
    for place in (0..scopes.len()).rev() {
        if let Some(binding) = scopes[place].latest(name) {
            return Some(binding);
        }
    }
    None
}

impl Vars {
    // The innermost and latest binding of a name (8.3).
    pub(crate) fn latest(&self, name: NameId) -> Option<&Binding>
        ensures { option_copied result ≡ find (λ b. b.name.0 == name.0) (latest_first self.now) }
    {
        latest_in(&self.scopes, name)
    }
}

/// What one scope binds, in the order of declaration. A contract sees the list of the bindings.
#[derive(Drop)]
pub struct Scope {
    pub bindings: Vec<Binding>,
}

impl Model for Scope {
    ghost use Rattle.std.specs.Prelude.{List};
    ghost use Rattle.ada_value.specs.inner.Bindings.{Bound};

    ghost Value = { List Bound };

    ghost view = { λ a. a.bindings.items };
}

impl Scope {
    // The latest binding of a name.
    fn latest(&self, name: NameId) -> Option<&Binding>
        ensures { option_copied result ≡ find (λ b. b.name.0 == name.0) (reverse self.now) }
    {
        self.bindings
            .iter()
            .rev()
            .find(|binding| binding.name.0 == name.0)
    }
}

/// A variable, constant or parameter: its name, the place of its mark in the table of types from 0, and its values. A scalar has one, and an array one for each index in order. A contract sees the record of these.
#[derive(Drop)]
pub struct Binding {
    pub name: NameId,
    pub mark: u32,
    pub values: Vec<Value>,
}

impl Model for Binding {
    ghost use Rattle.ada_value.specs.inner.Bindings.{Bound};

    ghost Value = { Bound };

    ghost view = { λ a. record { name = a.name; mark = a.mark; values = a.values.items } };
}
