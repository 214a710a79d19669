// The variables of calls and of abort statements.

ghost use Rattle.std.specs.Prelude.{◌≡◌, OnOk, map, option_map, take, true};
ghost use Rattle.ada_tree.specs.PlainExpr.{plain_expr};
ghost use Rattle.ada_tree.specs.PlainStmt.{plain_args, plain_call, plain_callee};
ghost use Rattle.task_model.specs.Setting.{first_expr, formals_of_info, lists_in, lists_of};
ghost use Rattle.syn_event.specs.Numbering.{entry_at};
ghost use Rattle.normal_model.specs.Ranges.{family_range, subtype_of_range};
ghost use Rattle.normal_model.specs.Making.{kept_if, kept_subtypes};
ghost use Rattle.normal_model.specs.Members.{callee_kept};
ghost use Rattle.normal_model.specs.Calls.{actual_subtypes, call_subtypes, select_subtypes, slots_of};
ghost use Rattle.normal_model.specs.Aborts.{abort_subtypes};
ghost use Rattle.normal_walk.specs.variables.Track.{IsTrack};
ghost use Rattle.normal_walk.specs.variables.inner.Adding.{Adds, lists_subtypes};

use crate::variables::adding::{add_integer, add_marks, add_range};
use crate::variables::track::Track;
use ada_tree::{Args, Call, Callee, Expr, Memory, Span, Word};
use normal_lookups::Lookups;
use std::alloc::Global;

// The variable of a callee's index, where it moves.
fn add_callee(
    alloc: Global,
    lookups: &Lookups,
    track: &mut Track,
    span: Span,
    callee: &Callee,
) -> Result<(), Memory>
    requires { IsTrack lookups.now track.old }
    ensures { OnOk result (Adds lookups.now span (kept_subtypes (callee_kept lookups.now span (plain_callee callee.now))) track.old track.new) }
{
    if lookups.moves(&callee.index) {
        let drange = lookups.array_range(callee.name.name);
        add_range(alloc, lookups, track, span, drange)
    } else {
        Ok(())
    }
}

/// The variables of an abort statement.
pub(crate) fn add_callees(
    alloc: Global,
    lookups: &Lookups,
    track: &mut Track,
    span: Span,
    callees: &[Callee],
) -> Result<(), Memory>
    requires { IsTrack lookups.now track.old }
    ensures { OnOk result (Adds lookups.now span (abort_subtypes lookups.now span (map plain_callee callees.now)) track.old track.new) }
{
    for callee in callees {
        add_callee(alloc, lookups, track, span, callee)?;
    }
    Ok(())
}

// The variable of a family's index, if the first list has one.
fn add_index(
    alloc: Global,
    lookups: &Lookups,
    track: &mut Track,
    span: Span,
    entry: u32,
    first: &[Expr],
) -> Result<(), Memory>
    requires { IsTrack lookups.now track.old }
    ensures { OnOk result (Adds lookups.now span (kept_subtypes (kept_if (subtype_of_range lookups.now.types span (family_range lookups.now entry)) (first_expr (map plain_expr first.now)))) track.old track.new) }
{
    if first.is_empty() {
        return Ok(());
    }
    let drange = lookups.family_range(entry);
    add_range(alloc, lookups, track, span, drange)
}

// The first of some marks.
fn cut(marks: &[Word], count: usize) -> &[Word]
    ensures { result.now ≡ take count marks.now }
{
    if count < marks.len() {
        &marks[..count]
    } else {
        marks
    }
}

// The variables of actuals: of as many formals as there are actuals.
fn add_actuals(
    alloc: Global,
    lookups: &Lookups,
    track: &mut Track,
    span: Span,
    entry: u32,
    actuals: &[Expr],
) -> Result<(), Memory>
    requires { IsTrack lookups.now track.old }
    ensures { OnOk result (Adds lookups.now span (actual_subtypes (slots_of (formals_of_info lookups.now (entry_at lookups.now.numbers entry))) (map plain_expr actuals.now)) track.old track.new) }
{
    let marks = cut(lookups.marks(entry), actuals.len());
    add_marks(alloc, lookups, track, span, marks)
}

// The variables of the lists of a call of a family: the index, and then the actuals.
fn add_family_lists(
    alloc: Global,
    lookups: &Lookups,
    track: &mut Track,
    span: Span,
    entry: u32,
    args: &Args,
) -> Result<(), Memory>
    requires { IsTrack lookups.now track.old }
    ensures { OnOk result (Adds lookups.now span (lists_subtypes lookups.now span entry (lists_in true (plain_args args.now))) track.old track.new) }
{
    add_index(alloc, lookups, track, span, entry, &args.first)?;
    match &args.second {
        Some(second) => add_actuals(alloc, lookups, track, span, entry, second),
        None => add_actuals(alloc, lookups, track, span, entry, &[]),
    }
}

// The variables of the lists of a call.
fn add_lists(
    alloc: Global,
    lookups: &Lookups,
    track: &mut Track,
    span: Span,
    entry: u32,
    args: &Option<Args>,
) -> Result<(), Memory>
    requires { IsTrack lookups.now track.old }
    ensures { OnOk result (Adds lookups.now span (lists_subtypes lookups.now span entry (lists_of lookups.now.numbers entry (option_map plain_args args.now))) track.old track.new) }
{
    match args {
        Some(args) => {
            if lookups.links().is_family(entry) {
                add_family_lists(alloc, lookups, track, span, entry, args)
            } else {
                add_actuals(alloc, lookups, track, span, entry, &args.first)
            }
        }
        None => add_actuals(alloc, lookups, track, span, entry, &[]),
    }
}

/// The variables of a call.
pub(crate) fn add_call(
    alloc: Global,
    lookups: &Lookups,
    track: &mut Track,
    span: Span,
    call: &Call,
) -> Result<(), Memory>
    requires { IsTrack lookups.now track.old }
    ensures { OnOk result (Adds lookups.now span (call_subtypes lookups.now span (plain_call call.now)) track.old track.new) }
{
    add_callee(alloc, lookups, track, span, &call.task)?;
    let entry = lookups.entry_called(call);
    add_lists(alloc, lookups, track, span, entry, &call.args)
}

/// The variables of a conditional or timed call.
pub(crate) fn add_select(
    alloc: Global,
    lookups: &Lookups,
    track: &mut Track,
    span: Span,
    call: &Call,
) -> Result<(), Memory>
    requires { IsTrack lookups.now track.old }
    ensures { OnOk result (Adds lookups.now span (select_subtypes lookups.now span (plain_call call.now)) track.old track.new) }
{
    add_call(alloc, lookups, track, span, call)?;
    if lookups.moves(&call.task.index) {
        add_integer(alloc, lookups, track, span)
    } else {
        Ok(())
    }
}
