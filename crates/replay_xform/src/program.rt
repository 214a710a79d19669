// The replay text of a program.

ghost use Rattle.std.specs.Prelude.{◌≡◌, ◌⊎◌, nat_lt, length, true, Err, Ok, IfOk, IfErr};
ghost use Rattle.ada_tree.specs.PlainProgram.{plain_program};
ghost use Rattle.normal_form.specs.declared.errors.XformError.TheVariants as errors;
ghost use Rattle.replay_model.specs.ReplayTree.{most_events, replay_of, replay_tree, replayed, script_of};

use crate::text::replay_sequence;
use ada_tree::{Memory, Program, Types};
use event_machine::Event;
use normal_form::{XformError, normal, normal_numbers};
use normal_lookups::Lookups;
use std::alloc::Global;
use syn_event::Numbers;
use task_links::Links;

/// A sequence that is replayed has at most so many events.
const MOST_EVENTS: u32 = 200_000;

// The replay text of the normal form `q`, whose numbers are `renumbered`; the events have the numbers of the program.
fn replay_normal(
    alloc: Global,
    q: &Program,
    types: &Types,
    renumbered: &Numbers,
    numbers: &Numbers,
    events: &[Event],
) -> Result<Program, Memory>
    ensures { IfOk result (λ text. plain_program text ≡ replay_of (record { program = plain_program q.now; types = types.now; numbers = renumbered.now }) (script_of numbers.now events.now)) }
{
    let links = Links::new(alloc, q, types, renumbered)?;
    match Lookups::new(alloc, &links) {
        Ok(lookups) => replay_sequence(alloc, &lookups, numbers, events),
        Err(e) => Err(e),
    }
}

// The replay text of a program and a sequence, however long.
fn replay_all(
    alloc: Global,
    p: &Program,
    types: &Types,
    numbers: &Numbers,
    events: &[Event],
) -> Result<Program, Memory>
    ensures { IfOk result (λ text. plain_program text ≡ replay_tree (plain_program p.now) types.now numbers.now events.now) }
{
    let q = normal(alloc, p, types, numbers)?;
    let renumbered = normal_numbers(alloc, &q, numbers)?;
    replay_normal(alloc, &q, types, &renumbered, numbers, events)
}

/// The replay text of a program with these types and numbers, and a sequence of events. The errors are more events than are replayed, and want of memory.
pub fn replay(
    alloc: Global,
    p: &Program,
    types: &Types,
    numbers: &Numbers,
    events: &[Event],
) -> Result<Program, XformError>
    ensures text { IfOk result (λ text. replayed (plain_program p.now) types.now numbers.now events.now ≡ Ok (plain_program text)) }
    ensures limit { nat_lt most_events (length events.now) ≡ true → result ≡ Err (errors.TooManyEvents most_events) }
    ensures cause { IfErr result (λ e. (e ≡ errors.Memory) ⊎ (nat_lt most_events (length events.now) ≡ true)) }
{
    if events.len() > MOST_EVENTS as usize {
        return Err(XformError::TooManyEvents { limit: MOST_EVENTS });
    }
    match replay_all(alloc, p, types, numbers, events) {
        Ok(text) => Ok(text),
        Err(_) => Err(XformError::Memory),
    }
}
