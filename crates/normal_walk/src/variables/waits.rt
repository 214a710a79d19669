// The variables of accept statements and of alternatives.

ghost use Rattle.std.specs.Prelude.{◌≡◌, OnOk, option_map};
ghost use Rattle.ada_tree.specs.PlainExpr.{plain_expr};
ghost use Rattle.ada_tree.specs.PlainStmt.{plain_accept, plain_alt, plain_alt_kind};
ghost use Rattle.task_model.specs.Setting.{entry_of};
ghost use Rattle.normal_model.specs.Ranges.{family_range, subtype_of_range};
ghost use Rattle.normal_model.specs.Making.{kept_if, kept_subtypes, moving};
ghost use Rattle.normal_model.specs.Waits.{accept_kept, alternative_subtypes, guard_subtypes, head_of, kind_kept};
ghost use Rattle.normal_walk.specs.variables.Track.{IsTrack};
ghost use Rattle.normal_walk.specs.variables.inner.Adding.{Adds};

use crate::variables::adding::{add_range, add_truth};
use crate::variables::track::Track;
use ada_tree::{Accept, Alt, AltKind, Expr, Memory, NameId, Span};
use normal_lookups::Lookups;
use std::alloc::Global;

// The entry of a name that a task has; where it has none it is 0.
fn entry_of(lookups: &Lookups, task: u32, name: NameId) -> u32
    ensures { result ≡ entry_of lookups.now.numbers task name }
{
    lookups.links().entry_of(task, name)
}

// The variable of the index of an entry, where it moves.
fn add_index(
    alloc: Global,
    lookups: &Lookups,
    track: &mut Track,
    span: Span,
    index: &Option<Expr>,
    entry: u32,
) -> Result<(), Memory>
    requires { IsTrack lookups.now track.old }
    ensures { OnOk result (Adds lookups.now span (kept_subtypes (kept_if (subtype_of_range lookups.now.types span (family_range lookups.now entry)) (moving lookups.now.types (option_map plain_expr index.now)))) track.old track.new) }
{
    if lookups.moves(index) {
        let drange = lookups.family_range(entry);
        add_range(alloc, lookups, track, span, drange)
    } else {
        Ok(())
    }
}

/// The variable of the index of an accept, where it moves.
pub(crate) fn add_accept(
    alloc: Global,
    lookups: &Lookups,
    task: u32,
    track: &mut Track,
    span: Span,
    accept: &Accept,
) -> Result<(), Memory>
    requires { IsTrack lookups.now track.old }
    ensures { OnOk result (Adds lookups.now span (kept_subtypes (accept_kept (record { setting = lookups.now; task = task }) span (head_of (plain_accept accept.now)))) track.old track.new) }
{
    let entry = entry_of(lookups, task, accept.entry.name);
    add_index(alloc, lookups, track, span, &accept.index, entry)
}

// The variable of a guard.
fn add_guard(
    alloc: Global,
    lookups: &Lookups,
    track: &mut Track,
    span: Span,
    guard: &Option<Expr>,
) -> Result<(), Memory>
    requires { IsTrack lookups.now track.old }
    ensures { OnOk result (Adds lookups.now span (guard_subtypes span (option_map plain_expr guard.now)) track.old track.new) }
{
    match guard {
        Some(_) => add_truth(alloc, lookups, track, span),
        None => Ok(()),
    }
}

// The variable of the index of what an alternative waits for.
fn add_kind(
    alloc: Global,
    lookups: &Lookups,
    task: u32,
    track: &mut Track,
    span: Span,
    kind: &AltKind,
) -> Result<(), Memory>
    requires { IsTrack lookups.now track.old }
    ensures { OnOk result (Adds lookups.now span (kept_subtypes (kind_kept (record { setting = lookups.now; task = task }) span (plain_alt_kind kind.now))) track.old track.new) }
{
    match kind {
        AltKind::Accept { accept, .. } => add_accept(alloc, lookups, task, track, span, accept),
        AltKind::Delay { .. } => Ok(()),
        AltKind::Terminate => Ok(()),
    }
}

/// The variables of an alternative.
pub(crate) fn add_alternative(
    alloc: Global,
    lookups: &Lookups,
    task: u32,
    track: &mut Track,
    alt: &Alt,
) -> Result<(), Memory>
    requires { IsTrack lookups.now track.old }
    ensures { OnOk result (Adds lookups.now alt.now.span (alternative_subtypes (record { setting = lookups.now; task = task }) (plain_alt alt.now)) track.old track.new) }
{
    add_guard(alloc, lookups, track, alt.span, &alt.guard)?;
    add_kind(alloc, lookups, task, track, alt.span, &alt.kind)
}
