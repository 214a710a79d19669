// The accepts of a selective wait that come before one, by what they are for.

ghost use Rattle.std.specs.Prelude.{◌≡◌, ◌∷◌, [], List, OnOk};
ghost use Rattle.std.specs.List.{list_any};
ghost use Rattle.ada_check_places.specs.parts.inner.Claiming.{meets, AreClaims};

use ada_tree::NameId;
use scoped_names::name_sets::NameSet;
use std::alloc::{AllocError, Global};
use std::collections::HashSet;

/// What an accept is for: an entry, and where its index is static the value of that.
#[derive(Clone, Copy)]
pub(crate) struct Claim {
    pub entry: NameId,
    pub index: Option<i64>,
}

/// A member of a family.
#[derive(Clone, Copy, PartialEq, Eq, Hash)]
struct Member {
    entry: u32,
    index: i64,
}

/// What some accepts are for: all their entries, those that are accepted without a static index, and the members of families that are accepted with one.
#[derive(Drop)]
pub(crate) struct Claims {
    entries: NameSet,
    whole: NameSet,
    members: HashSet<Member>,
}

impl Claims {
    /// No accepts.
    pub(crate) fn new(alloc: Global) -> Self
        ensures { AreClaims [] result }
    {
        Claims {
            entries: NameSet::new(alloc),
            whole: NameSet::new(alloc),
            members: HashSet::new(alloc),
        }
    }

    /// Whether an accept may take a caller that one of these may take.
    pub(crate) fn meets(&self, claim: Claim) -> bool
        ensures { (before : List Claim) → AreClaims before self.now → result ≡ list_any (meets claim) before }
    {
        match claim.index {
            Some(index) => {
                let member = Member {
                    entry: claim.entry.0,
                    index,
                };
                let is_whole = self.whole.has(claim.entry);
                let is_member = self.members.contains(&member);
                is_whole || is_member
            }
            None => self.entries.has(claim.entry),
        }
    }

    /// One accept more.
    pub(crate) fn add(&mut self, claim: Claim) -> Result<(), AllocError>
        ensures { (before : List Claim) → AreClaims before self.old → OnOk result (AreClaims (claim ∷ before) self.new) }
    {
        self.entries.add(claim.entry)?;
        match claim.index {
            Some(index) => match self.members.insert(Member {
                entry: claim.entry.0,
                index,
            }) {
                Ok(_) => Ok(()),
                Err(_) => Err(AllocError),
            },
            None => self.whole.add(claim.entry),
        }
    }
}
