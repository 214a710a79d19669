// The variables that a statement or an alternative asks for itself.

ghost use Rattle.std.specs.Prelude.{OnOk};
ghost use Rattle.ada_tree.specs.PlainStmt.{plain_alt, plain_stmt};
ghost use Rattle.normal_model.specs.Variables.{alternative_variables, statement_variables};
ghost use Rattle.normal_walk.specs.variables.Track.{Enters, IsTrack, variables_of};

use crate::variables::calls::{add_call, add_callees, add_select};
use crate::variables::track::Track;
use crate::variables::waits::{add_accept, add_alternative};
use ada_tree::{Alt, Memory, Stmt, StmtKind};
use normal_lookups::Lookups;
use std::alloc::Global;

/// The variables that a statement asks for itself go behind the others of its unit, which the task of this number runs.
pub fn enter_statement(
    alloc: Global,
    lookups: &Lookups,
    task: u32,
    track: &mut Track,
    stmt: &Stmt,
) -> Result<(), Memory>
    requires { IsTrack lookups.now track.old }
    ensures { OnOk result (Enters lookups.now (statement_variables (record { setting = lookups.now; task = task }) (variables_of track.old) (plain_stmt stmt.now)) track.old track.new) }
{
    match &stmt.kind {
        StmtKind::Call(call) => add_call(alloc, lookups, track, stmt.span, call),
        StmtKind::Conditional { call, .. } => add_select(alloc, lookups, track, stmt.span, call),
        StmtKind::Timed { call, .. } => add_select(alloc, lookups, track, stmt.span, call),
        StmtKind::Accept(accept) => add_accept(alloc, lookups, task, track, stmt.span, accept),
        StmtKind::Abort { names } => add_callees(alloc, lookups, track, stmt.span, names),
        _ => Ok(()),
    }
}

/// The variables that an alternative asks for itself go behind the others of its unit, which the task of this number runs.
pub fn enter_alternative(
    alloc: Global,
    lookups: &Lookups,
    task: u32,
    track: &mut Track,
    alt: &Alt,
) -> Result<(), Memory>
    requires { IsTrack lookups.now track.old }
    ensures { OnOk result (Enters lookups.now (alternative_variables (record { setting = lookups.now; task = task }) (variables_of track.old) (plain_alt alt.now)) track.old track.new) }
{
    add_alternative(alloc, lookups, task, track, alt)
}
