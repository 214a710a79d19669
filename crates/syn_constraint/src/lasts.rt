// The last place at which a pattern matched, for each value of `?`.

ghost use Rattle.std.specs.Prelude.{◌≡◌, ◌≤◌, ℤ, Option, Some, IfOk, if◌then◌else◌};
ghost use Rattle.syn_constraint.specs.inner.Reaching.{reaches};
ghost use Rattle.syn_constraint.specs.inner.Lasts.{last_at, IsLongestAgo};

use super::by_value::ByValue;
use super::reach::Reach;
use ada_tree::Memory;
use std::alloc::Global;

/// For each value, and for none, the last place that was noted; 0 where there is none.
#[derive(Drop)]
pub(crate) struct Lasts {
    everywhere: u32,
    single: ByValue,
}

impl Lasts {
    pub(crate) fn new(alloc: Global) -> Result<Lasts, Memory>
        ensures { IfOk result (λ made. (value : Option ℤ) → last_at made value ≡ 0) }
    {
        let single = ByValue::new(alloc)?;
        Ok(Lasts {
            everywhere: 0,
            single,
        })
    }

    /// Notes the place, which is no earlier than those before, at these values.
    pub(crate) fn note(&mut self, reach: Reach, place: u32) -> Result<(), Memory>
        ensures { IfOk result (λ _. (value : Option ℤ) → last_at self.old value ≤ place
            → last_at self.new value ≡ (if reaches reach value then place else last_at self.old value)) }
    {
        match reach {
            Reach::Nowhere => Ok(()),
            Reach::Everywhere => {
                self.everywhere = place;
                Ok(())
            }
            Reach::At(value) => self.single.set(value, place),
        }
    }

    pub(crate) fn at(&self, value: i64) -> u32
        ensures { result ≡ last_at self.now (Some value) }
    {
        self.everywhere.max(self.single.at(value))
    }

    /// The earliest of the last places at these values; nothing where there is no such value.
    pub(crate) fn longest_ago(&self, reach: Reach) -> Option<u32>
        ensures { IsLongestAgo self.now reach result }
    {
        match reach {
            Reach::Nowhere => None,
            Reach::Everywhere => Some(self.everywhere),
            Reach::At(value) => Some(self.at(value)),
        }
    }
}
