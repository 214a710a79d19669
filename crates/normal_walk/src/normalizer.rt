// The rewriter of a unit.

ghost use Rattle.std.specs.Prelude.{◌≡◌, IfOk};

use crate::variables::{Track, enter_alternative, enter_statement};
use crate::waits::{leave_alternative, push_alternative_before, put_image};
use ada_tree::{Alt, Memory, Stmt};
use normal_lookups::Lookups;
use normal_lookups::meanings::{Members, NormalMeanings};
use std::alloc::Global;
use tree_rewriting::walking::Rewriter;

/// The rewriter of a unit that the task of this number runs. `begun` is the number of variables that had names before it.
#[derive(Drop)]
pub(crate) struct Normalizer<'a> {
    pub(crate) alloc: Global,
    pub(crate) lookups: &'a Lookups<'a>,
    pub(crate) members: &'a Members,
    pub(crate) task: u32,
    pub(crate) begun: usize,
}

// The number of the next variable, for which there is no room from 2 ^ 32 on.
fn number_of(count: usize) -> Result<u32, Memory>
    ensures { IfOk result (λ number. number ≡ count) }
{
    match u32::try_from(count) {
        Ok(number) => Ok(number),
        Err(_) => Err(Memory),
    }
}

impl<'a> Rewriter for Normalizer<'a> {
    type Track = Track;

    ghost use Rattle.std.specs.Prelude.{List};
    ghost use Rattle.ada_tree.specs.PlainDecl.{PDecl};
    ghost use Rattle.normal_walk.specs.variables.Track.{variables_of};
    ghost use Rattle.normal_walk.specs.inner.Walking.{FitsUnit, normal_rule};

    ghost State = { List PDecl };

    ghost state = { variables_of };

    ghost rule = { λ r. normal_rule (record { setting = r.lookups.now; task = r.task }) };

    ghost fits = { λ r t. FitsUnit r.lookups.now r.members.now r.begun t };

    fn enter_stmt(&self, track: &mut Track, stmt: &Stmt) -> Result<u32, Memory> {
        let number = number_of(track.decls.len())?;
        enter_statement(self.alloc, self.lookups, self.task, track, stmt)?;
        Ok(number)
    }

    fn enter_alternative(
        &self,
        track: &mut Track,
        alt: &Alt,
        out: &mut Vec<Stmt>,
    ) -> Result<u32, Memory> {
        let number = number_of(track.decls.len())?;
        enter_alternative(self.alloc, self.lookups, self.task, track, alt)?;
        let meanings = NormalMeanings {
            alloc: self.alloc,
            lookups: self.lookups,
            members: self.members,
            names: &track.names,
        };
        push_alternative_before(self.alloc, &meanings, number, alt, out)?;
        Ok(number)
    }

    fn leave_alternative(&self, track: &Track, number: u32, alt: &mut Alt) -> Result<(), Memory> {
        let meanings = NormalMeanings {
            alloc: self.alloc,
            lookups: self.lookups,
            members: self.members,
            names: &track.names,
        };
        leave_alternative(&meanings, number, alt)
    }

    fn replace_stmt(
        &self,
        track: &Track,
        number: u32,
        stmt: &mut Stmt,
        out: &mut Vec<Stmt>,
    ) -> Result<(), Memory> {
        let meanings = NormalMeanings {
            alloc: self.alloc,
            lookups: self.lookups,
            members: self.members,
            names: &track.names,
        };
        put_image(self.alloc, &meanings, number, stmt, out)
    }
}
