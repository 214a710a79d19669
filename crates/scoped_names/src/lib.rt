//! What names mean in nested scopes. A look-up, a declaration and the end of a scope each take one step for a name.
#![tactic(auto)]

pub mod name_sets;

ghost use Rattle.std.specs.Prelude.{◌≡◌, ◌<◌, ◌∷◌, [], Some, drop, length, slice_get, option_map, OnOk, OnErr};
ghost use Rattle.scoped_names.specs.Meaning.{meaning_in};

use std::alloc::{AllocError, Global};
use std::collections::HashMap;
use std::marker::Model;

// A name with what it means, and the place of the slot of the same name that it hides.
#[derive(Drop)]
struct Slot<T> {
    name: u32,
    hides: Option<usize>,
    thing: T,
}

/// The names that can be used at a place, by their numbers. A contract sees the list of the names with what each means, the latest first.
#[derive(Drop)]
pub struct ScopedNames<T> {
    slots: Vec<Slot<T>>,
    latest: HashMap<u32, usize>,
}

impl<T> Model for ScopedNames<T> {
    ghost use Rattle.std.specs.Prelude.{ℕ, List};
    ghost use Rattle.scoped_names.specs.inner.Places.{seen};
    ghost use Rattle.scoped_names.specs.inner.Linked.{Linked};

    ghost Value = { List (ℕ × T) };

    ghost view = { λ a. seen a.slots.items };

    ghost invariant = { λ a. Linked a.slots.items a.latest };
}

impl<T> ScopedNames<T> {
    /// No names.
    pub fn new(alloc: Global) -> Self
        ensures { result ≡ [] }
    {
        ScopedNames {
            slots: Vec::new(alloc),
            latest: HashMap::new(alloc),
        }
    }

    /// How many names there are, each counted as often as it is declared.
    pub fn len(&self) -> usize
        ensures { result ≡ length self.now }
    {
        self.slots.len()
    }

    /// What the name at a place means, where the latest name has place 0.
    pub fn at(&self, place: usize) -> &T
        requires { place < length self.now }
        ensures { Some result.now ≡ option_map (λ s. s.1) (slice_get self.now place) }
    {
        let slot = &self.slots[self.slots.len() - 1 - place];
        &slot.thing
    }

    /// What a name means, which is what it was declared as the latest time.
    pub fn meaning(&self, name: u32) -> Option<&T>
        ensures { option_map (λ t. t.now) result ≡ meaning_in self.now name }
    {
        match self.latest.get(&name) {
            Some(place) => match self.slots.get(*place) {
                Some(slot) => Some(&slot.thing),
                None => None,
            },
            None => None,
        }
    }

    /// One name more. After an error, which comes by want of memory, the names are as before.
    pub fn declare(&mut self, name: u32, thing: T) -> Result<(), AllocError>
    where
        T: Drop,
        ensures ok { OnOk result (self.new ≡ (name, thing) ∷ self.old) }
        ensures err { OnErr result (self.new ≡ self.old) }
    {
        let place = self.slots.len();
        let hides = self.latest.get(&name).copied();
        self.slots.push(Slot { name, hides, thing })?;
        match self.latest.insert(name, place) {
            Ok(_) => Ok(()),
            Err(_) => {
                self.slots.pop();
                Err(AllocError)
            }
        }
    }

    /// The names without the latest one.
    pub fn forget(&mut self)
    where
        T: Drop,
        ensures { self.new ≡ drop 1 self.old }
    {
        if let Some(slot) = self.slots.pop() {
            match slot.hides {
                Some(place) => {
                    // the name is there, so that no room is needed
                    let _ = self.latest.insert(slot.name, place);
                }
                None => {
                    self.latest.remove(&slot.name);
                }
            }
        }
    }

    /// The names without so many of the latest ones.
    pub fn leave(&mut self, count: usize)
    where
        T: Drop,
        ensures { self.new ≡ drop count self.old }
    {
        for _ in 0..count {
            self.forget();
        }
    }
}
