// The verdict of the events that were collected.

ghost use Rattle.std.specs.Prelude.{◌≤◌, [], length, IfOk};
ghost use Rattle.ada_tree.specs.PlainProgram.{plain_program};
ghost use Rattle.feasible.specs.Keeping.{NothingFollows};
ghost use Rattle.task_machine.specs.Judging.{VerdictIs};
ghost use Rattle.debug_collect.specs.loads.LoadOutcomes.{load_bound};

use ada_tree::{Memory, Program, Types};
use ada_value::Inputs;
use debug_judge::judge_events;
use event_machine::Event;
use feasible::Verdict;
use std::alloc::Global;
use syn_event::Numbers;
use task_links::Links;

// Between two events that change it a task makes at most so many local steps.
const BOUND: u64 = 1_000;

// The verdict of events of a program whose tasks read nothing.
pub(crate) fn judge_load(
    alloc: Global,
    program: &Program,
    types: &Types,
    numbers: &Numbers,
    events: &[Event],
) -> Result<Verdict, Memory>
    requires end { NothingFollows events.now }
    requires few { length events.now ≤ 200000 }
    ensures { IfOk result (VerdictIs (record { program = plain_program program.now; types = types.now; inputs = [] }) numbers.now load_bound events.now) }
{
    let links = Links::new(alloc, program, types, numbers)?;
    let inputs = Inputs {
        lists: Vec::new(alloc),
    };
    match judge_events(alloc, &links, &inputs, events, BOUND) {
        Ok(found) => Ok(found.verdict),
        Err(e) => Err(e),
    }
}
