// The first event that breaks a constraint.

ghost use Rattle.std.specs.Prelude.{◌<◌, ◌^◌, length, IfOk};
ghost use Rattle.syn_constraint.specs.Breaking.{IsFirstBreak};

use super::constraints::Constraint;
use super::early::first_too_early;
use super::reach::asks_same;
use super::surplus::first_surplus;
use super::surplus_by_value::first_surplus_by_value;
use ada_tree::Memory;
use std::alloc::Global;
use syn_event::Event;

/// The first place, from 1, whose event breaks the constraint; nothing where no event does.
///
/// It goes through the events once, and takes time and memory in step with them, also where patterns have `?`.
pub fn first_break(
    alloc: Global,
    constraint: &Constraint,
    events: &[Event],
) -> Result<Option<u32>, Memory>
    requires { length events.now < 2 ^ 32 }
    ensures { IfOk result (λ first. IsFirstBreak constraint.now events.now first) }
{
    match *constraint {
        Constraint::Before { early, late } => first_too_early(alloc, &early, &late, events),
        Constraint::Most {
            limit,
            counted,
            opens,
            closes,
        } => if asks_same(&counted) {
            first_surplus_by_value(alloc, limit, &counted, &opens, &closes, events)
        } else {
            first_surplus(alloc, limit, &counted, &opens, &closes, events)
        },
    }
}
