// One unit in normal form.

ghost use Rattle.std.specs.Prelude.{◌≡◌, IfOk, OnOk, length, max};
ghost use Rattle.ada_stmt_copy.specs.expressions.Parts.{OkWith};
ghost use Rattle.ada_tree.specs.PlainStmt.{plain_body};
ghost use Rattle.normal_model.specs.NormalStmts.{normal_body, unit_variables};
ghost use Rattle.normal_walk.specs.variables.Track.{IsTrack, variables_of};
ghost use Rattle.normal_walk.specs.Begun.{Begins};

use crate::normalizer::Normalizer;
use crate::variables::Track;
use ada_stmt_copy::StmtCopy;
use ada_tree::{Body, Memory};
use normal_lookups::Lookups;
use normal_lookups::meanings::Members;
use std::alloc::Global;
use tree_rewriting::walking::rewrite_body;

// A body that was gone through, where that went well.
fn keep_body(copy: Body, done: Result<(), Memory>) -> Result<Body, Memory>
    ensures { IfOk result (λ made. OkWith done (λ _. plain_body made ≡ plain_body copy)) }
{
    match done {
        Ok(()) => Ok(copy),
        Err(e) => Err(e),
    }
}

/// The body of a unit in normal form; the task of this number runs the unit. Its variables are declared in the track, which has none of another unit.
pub fn rewrite_unit(
    alloc: Global,
    lookups: &Lookups,
    members: &Members,
    task: u32,
    track: &mut Track,
    body: &Body,
) -> Result<Body, Memory>
    requires { Begins lookups.now members.now track.old }
    ensures body { IfOk result (λ made. plain_body made ≡ normal_body (record { setting = lookups.now; task = task }) (plain_body body.now)) }
    ensures variables { OnOk result (variables_of track.new ≡ unit_variables (record { setting = lookups.now; task = task }) (plain_body body.now)) }
    ensures track { OnOk result (IsTrack lookups.now track.new) }
    ensures count { OnOk result (length track.new.names.variables.items ≡ max (length track.old.names.variables.items) (length track.new.decls.items)) }
{
    match body.copy(alloc) {
        Ok(copy) => {
            let mut copy = copy;
            let begun = track.names.variables.len();
            let done = rewrite_body(
                alloc,
                &mut copy,
                &Normalizer {
                    alloc,
                    lookups,
                    members,
                    task,
                    begun,
                },
                track,
            );
            keep_body(copy, done)
        }
        Err(e) => Err(e),
    }
}
