// The values that the choices of a case have had.

ghost use Rattle.std.specs.Prelude.{◌≡◌, ◌↔◌, OnOk, Some, MatchOption, ◌≤ℤ◌};
ghost use Rattle.ada_entry_rules.specs.case_choices.Covers.{first_of, Covers, Reaches, IsFree};

use std::alloc::{AllocError, Global};
use std::collections::BTreeMap;
use std::marker::Model;

/// Ranges that have no value in common. A contract sees the list of their last values, each with the first one.
#[derive(Drop)]
pub(crate) struct Covered {
    firsts: BTreeMap<i64, i64>,
}

impl Model for Covered {
    ghost use Rattle.std.specs.Prelude.{List, ℤ};
    ghost use Rattle.ada_entry_rules.specs.case_choices.Covers.{Apart};

    ghost Value = { List (ℤ × ℤ) };

    ghost view = { λ a. a.firsts.entries };

    ghost invariant = { λ a. Apart a.firsts.entries };
}

impl Covered {
    /// No values.
    pub fn new(alloc: Global) -> Self
        ensures { (z : _) → Covers result z → ⊥ }
    {
        Covered {
            firsts: BTreeMap::new(alloc),
        }
    }

    /// The first range that has a value in common with the values from `first` to `last`, if there is one.
    pub fn meeting(&self, first: i64, last: i64) -> Option<(i64, i64)>
        ensures { MatchOption result (IsFree self.now first last) (λ r. (first_of self.now r.1 ≡ Some r.0) × (r.0 ≤ℤ last) × (first ≤ℤ r.1) × (r.0 ≤ℤ r.1)) }
    {
        match self.firsts.range(first..).next() {
            Some((end, start)) => {
                if *start <= last {
                    Some((*start, *end))
                } else {
                    None
                }
            }
            None => None,
        }
    }

    /// The values of a range more.
    pub fn add(&mut self, first: i64, last: i64) -> Result<(), AllocError>
        requires { first ≤ℤ last }
        ensures { OnOk result ((z : _) → Covers self.new z ↔ Reaches self.old first last z) }
    {
        let (mut low, mut high) = (first, last);
        while let Some((start, end)) = self.meeting(low, high) {
            self.firsts.remove(&end);
            low = low.min(start);
            high = high.max(end);
        }
        self.firsts.insert(high, low)?;
        Ok(())
    }
}
