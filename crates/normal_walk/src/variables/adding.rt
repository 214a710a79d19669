// Variables behind the others of a unit.

ghost use Rattle.std.specs.Prelude.{◌≡◌, ◌∷◌, [], IfOk, OnOk, map, option_map};
ghost use Rattle.ada_stmt_copy.specs.expressions.Parts.{OkWith};
ghost use Rattle.ada_tree.specs.PlainExpr.{plain_drange, plain_subind};
ghost use Rattle.normal_model.specs.Ranges.{marked, integer_subtype, subtype_of_range, truth_subtype};
ghost use Rattle.normal_walk.specs.variables.Track.{IsTrack};
ghost use Rattle.normal_walk.specs.variables.inner.Adding.{Adds};

use crate::variables::track::Track;
use ada_tree::{Drange, Memory, NameId, Span, Subind, Word};
use normal_lookups::Lookups;
use std::alloc::Global;
use tree_rewriting::making::{push_decl, variable_decl};

// The number of a variable, for which there is no room from 2 ^ 32 on.
fn number_of(count: usize) -> Result<u32, Memory>
    ensures { IfOk result (λ number. number ≡ count) }
{
    match u32::try_from(count) {
        Ok(number) => Ok(number),
        Err(_) => Err(Memory),
    }
}

// One variable more.
fn add_variable(
    alloc: Global,
    lookups: &Lookups,
    track: &mut Track,
    span: Span,
    subtype: Result<Subind, Memory>,
) -> Result<(), Memory>
    requires { IsTrack lookups.now track.old }
    ensures { OnOk result (OkWith subtype (λ x. Adds lookups.now span (plain_subind x ∷ []) track.old track.new)) }
{
    let number = number_of(track.decls.len())?;
    let name = track.names.declare(alloc, number)?;
    let decl = variable_decl(alloc, Word { name, span }, subtype, span);
    push_decl(&mut track.decls, decl)
}

/// One variable more, for the values of a range.
pub(crate) fn add_range(
    alloc: Global,
    lookups: &Lookups,
    track: &mut Track,
    span: Span,
    drange: Option<&Drange>,
) -> Result<(), Memory>
    requires { IsTrack lookups.now track.old }
    ensures { OnOk result (Adds lookups.now span (subtype_of_range lookups.now.types span (option_map (λ r. plain_drange r.now) drange.entry) ∷ []) track.old track.new) }
{
    let subtype = lookups.subtype_of_range(alloc, span, drange);
    add_variable(alloc, lookups, track, span, subtype)
}

// The subtype of a mark.
fn marked(mark: Word) -> Subind
    ensures { plain_subind result ≡ marked mark }
{
    Subind { mark, bounds: None }
}

// One variable more, of the subtype of a mark.
fn add_marked(
    alloc: Global,
    lookups: &Lookups,
    track: &mut Track,
    span: Span,
    mark: Word,
) -> Result<(), Memory>
    requires { IsTrack lookups.now track.old }
    ensures { OnOk result (Adds lookups.now span (marked mark ∷ []) track.old track.new) }
{
    add_variable(alloc, lookups, track, span, Ok(marked(mark)))
}

/// One variable more, of BOOLEAN.
pub(crate) fn add_truth(
    alloc: Global,
    lookups: &Lookups,
    track: &mut Track,
    span: Span,
) -> Result<(), Memory>
    requires { IsTrack lookups.now track.old }
    ensures { OnOk result (Adds lookups.now span (truth_subtype span ∷ []) track.old track.new) }
{
    let mark = Word {
        name: NameId::BOOLEAN,
        span,
    };
    add_marked(alloc, lookups, track, span, mark)
}

/// One variable more, of INTEGER.
pub(crate) fn add_integer(
    alloc: Global,
    lookups: &Lookups,
    track: &mut Track,
    span: Span,
) -> Result<(), Memory>
    requires { IsTrack lookups.now track.old }
    ensures { OnOk result (Adds lookups.now span (integer_subtype span ∷ []) track.old track.new) }
{
    let mark = Word {
        name: NameId::INTEGER,
        span,
    };
    add_marked(alloc, lookups, track, span, mark)
}

/// A variable for each of these marks, in order.
pub(crate) fn add_marks(
    alloc: Global,
    lookups: &Lookups,
    track: &mut Track,
    span: Span,
    marks: &[Word],
) -> Result<(), Memory>
    requires { IsTrack lookups.now track.old }
    ensures { OnOk result (Adds lookups.now span (map marked marks.now) track.old track.new) }
{
    for mark in marks {
        add_marked(alloc, lookups, track, span, *mark)?;
    }
    Ok(())
}
