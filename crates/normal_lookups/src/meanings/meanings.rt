// What names mean where a statement gets its normal form.

ghost use Rattle.std.specs.Prelude.{◌≡◌};

use crate::Lookups;
use crate::meanings::array_members::Members;
use crate::names::NormalNames;
use crate::pieces::{Meanings, Member};
use ada_tree::{Call, Callee, Expr, Memory, NameId, ParMode};
use std::alloc::Global;

/// A program with what its normal form asks of it and the names that it has so far.
#[derive(Clone, Copy, Drop)]
pub struct NormalMeanings<'a> {
    pub alloc: Global,
    pub lookups: &'a Lookups<'a>,
    pub members: &'a Members,
    pub names: &'a NormalNames,
}

impl<'a> Meanings for NormalMeanings<'a> {
    ghost use Rattle.normal_lookups.specs.meanings.Meant.{AreMeanings};

    ghost setting = { λ m. m.lookups.now };

    ghost fits = { λ m. AreMeanings m.lookups.now m.names.now m.members.now };

    fn variable(&self, number: u32) -> Result<NameId, Memory> {
        self.names.variable(self.alloc, number)
    }

    fn is_static(&self, expr: &Expr) -> bool {
        self.lookups.is_static(expr)
    }

    fn callee_name(&self, callee: &Callee) -> NameId {
        self.names.task(self.lookups.known_task(callee))
    }

    fn members(&self, array: NameId) -> &[Member] {
        self.members.of(array)
    }

    fn entry_called(&self, call: &Call) -> u32 {
        self.lookups.entry_called(call)
    }

    fn is_family(&self, entry: u32) -> bool {
        self.lookups.links().is_family(entry)
    }

    fn modes(&self, entry: u32) -> &[ParMode] {
        self.lookups.modes(entry)
    }
}
