// The copies of bodies: one for each task that runs them.

ghost use Rattle.std.specs.Prelude.{◌≡◌, ◌++◌, [], OnOk, flat_map, length, map, max};
ghost use Rattle.ada_tree.specs.PlainStmt.{plain_body};
ghost use Rattle.ada_tree.specs.PlainDecl.{plain_decl};
ghost use Rattle.normal_model.specs.NormalTree.{bodies_of, greatest, unit_for, variables_of_body};
ghost use Rattle.normal_model.specs.NormalStmts.{unit_variables};
ghost use Rattle.normal_walk.specs.Begun.{Begins};
ghost use Rattle.normal_form.specs.unit_declarations.Runners.{AreRunning};
ghost use Rattle.normal_form.specs.inner.Bodies.{seen_body};

use crate::unit_declarations::{Copied, Running, push_copies};
use ada_tree::{Body, Decl, DeclKind, Memory, Span, Word};
use normal_lookups::Lookups;
use normal_lookups::meanings::Members;
use normal_walk::rewrite_unit;
use normal_walk::variables::Track;
use std::alloc::Global;
use std::mem;

/// The variables that the walk of a unit left in a track, which has none of them any longer.
pub(crate) fn take_variables(alloc: Global, track: &mut Track) -> Vec<Decl>
    ensures taken { result.items ≡ track.old.decls.items }
    ensures left { track.new.decls.items ≡ [] }
    ensures names { track.new.names ≡ track.old.names }
{
    mem::replace(&mut track.decls, Vec::new(alloc))
}

/// A body as it is declared.
#[derive(Clone, Copy)]
pub(crate) struct BodyDecl<'p> {
    pub(crate) name: Word,
    pub(crate) objects: &'p [Decl],
    pub(crate) body: &'p Body,
    pub(crate) span: Span,
}

// The copies of a body go behind other declarations, as it is rewritten for the first of the tasks that run it.
fn push_run(
    alloc: Global,
    lookups: &Lookups,
    members: &Members,
    running: &Running,
    track: &mut Track,
    decl: &BodyDecl,
    out: &mut Vec<Decl>,
) -> Result<(), Memory>
    requires begins { Begins lookups.now members.now track.old }
    requires running { AreRunning lookups.now running.now }
    ensures decls { OnOk result (map plain_decl out.new.items ≡ map plain_decl out.old.items ++ bodies_of lookups.now (seen_body decl.now)) }
    ensures begins { OnOk result (Begins lookups.now members.now track.new) }
    ensures count { OnOk result (length track.new.names.variables.items ≡ max (length track.old.names.variables.items) (length (unit_variables (unit_for lookups.now decl.now.name.name) (plain_body decl.now.body.now)))) }
{
    let name = decl.name.name;
    let task = running.first(name);
    let its = rewrite_unit(alloc, lookups, members, task, track, decl.body);
    let vars = take_variables(alloc, track);
    match its {
        Ok(its) => {
            let copied = Copied {
                name: decl.name,
                objects: decl.objects,
                vars: &vars,
                its: &its,
                span: decl.span,
            };
            push_copies(alloc, &copied, running.names(name), out)
        }
        Err(e) => Err(e),
    }
}

// The copies of a declaration that is a body go behind other declarations.
fn push_bodies_of(
    alloc: Global,
    lookups: &Lookups,
    members: &Members,
    running: &Running,
    track: &mut Track,
    decl: &Decl,
    out: &mut Vec<Decl>,
) -> Result<(), Memory>
    requires begins { Begins lookups.now members.now track.old }
    requires running { AreRunning lookups.now running.now }
    ensures decls { OnOk result (map plain_decl out.new.items ≡ map plain_decl out.old.items ++ bodies_of lookups.now (plain_decl decl.now)) }
    ensures begins { OnOk result (Begins lookups.now members.now track.new) }
    ensures count { OnOk result (length track.new.names.variables.items ≡ max (length track.old.names.variables.items) (variables_of_body lookups.now (plain_decl decl.now))) }
{
    match &decl.kind {
        DeclKind::TaskBody {
            name,
            objects,
            body,
        } => {
            if running.names(name.name).is_empty() {
                return Ok(());
            }
            let decl = BodyDecl {
                name: *name,
                objects,
                body,
                span: decl.span,
            };
            push_run(alloc, lookups, members, running, track, &decl, out)
        }
        _ => Ok(()),
    }
}

/// The copies of all bodies go behind other declarations, in written order.
pub(crate) fn push_bodies(
    alloc: Global,
    lookups: &Lookups,
    members: &Members,
    running: &Running,
    track: &mut Track,
    decls: &[Decl],
    out: &mut Vec<Decl>,
) -> Result<(), Memory>
    requires begins { Begins lookups.now members.now track.old }
    requires running { AreRunning lookups.now running.now }
    ensures decls { OnOk result (map plain_decl out.new.items ≡ map plain_decl out.old.items ++ flat_map (bodies_of lookups.now) (map plain_decl decls.now)) }
    ensures begins { OnOk result (Begins lookups.now members.now track.new) }
    ensures count { OnOk result (length track.new.names.variables.items ≡ max (length track.old.names.variables.items) (greatest (map (variables_of_body lookups.now) (map plain_decl decls.now)))) }
{
    for decl in decls {
        push_bodies_of(alloc, lookups, members, running, track, decl, out)?;
    }
    Ok(())
}
