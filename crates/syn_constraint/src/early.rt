// The first event that comes too early.

ghost use Rattle.std.specs.Prelude.{◌≡◌, ◌<◌, ◌^◌, length, IfOk};
ghost use Rattle.syn_constraint.specs.declared.constraints.Constraint.TheVariants.{Before};
ghost use Rattle.syn_constraint.specs.Breaking.{IsFirstBreak};
ghost use Rattle.syn_constraint.specs.inner.Lasts.{IsUnseen};

use super::constraints::Pattern;
use super::lasts::Lasts;
use super::reach::{Reach, reach_of};
use ada_tree::Memory;
use std::alloc::Global;
use syn_event::Event;

/// The first place whose event matches the later pattern though no event before matches the earlier one, for some value of `?`.
pub(crate) fn first_too_early(
    alloc: Global,
    early: &Pattern,
    late: &Pattern,
    events: &[Event],
) -> Result<Option<u32>, Memory>
    requires { length events.now < 2 ^ 32 }
    ensures { IfOk result (λ first. IsFirstBreak (Before early.now late.now) events.now first) }
{
    let mut seen = Lasts::new(alloc)?;
    let mut place: u32 = 0;
    for event in events {
        place += 1;
        if is_unseen(&seen, reach_of(late, event)) {
            return Ok(Some(place));
        }
        seen.note(reach_of(early, event), place)?;
    }
    Ok(None)
}

// Whether nothing was noted at one of these values.
fn is_unseen(seen: &Lasts, reach: Reach) -> bool
    ensures { IsUnseen seen.now reach result }
{
    match seen.longest_ago(reach) {
        Some(place) => place == 0,
        None => false,
    }
}
