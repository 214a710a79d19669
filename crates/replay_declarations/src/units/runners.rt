// Which task runs a body first.

ghost use Rattle.std.specs.Prelude.{◌≡◌, map, IfOk};
ghost use Rattle.syn_event.specs.Numbering.{Numbering};
ghost use Rattle.replay_declarations.specs.ids.Arranged.{first_running};
ghost use Rattle.replay_declarations.specs.units.inner.UnderUnits.{under_unit, by_units};

use ada_tree::{Memory, NameId};
use std::alloc::Global;
use syn_event::{Numbers, TaskInfo};
use task_links::TaskNames;

// The tasks under the names of the bodies that they run.
fn under_units(alloc: Global, tasks: &[TaskInfo]) -> Result<Vec<TaskInfo>, Memory>
    ensures { IfOk result (λ made. made.items ≡ map under_unit tasks.now) }
{
    let mut made = Vec::new(alloc);
    for info in tasks {
        made.push(TaskInfo {
            name: info.unit,
            ..*info
        })?;
    }
    Ok(made)
}

/// The numbers with the tasks under the names of the bodies that they run, and without entries.
#[tactic(auto, using(crate::proofs::units::Running::lengths))]
pub(crate) fn by_units(alloc: Global, numbers: &Numbers) -> Result<Numbers, Memory>
    ensures { IfOk result (λ made. made ≡ by_units numbers.now) }
{
    let tasks = under_units(alloc, &numbers.tasks)?;
    Ok(Numbers {
        main: numbers.main,
        tasks,
        entries: Vec::new(alloc),
    })
}

/// The number of the first task that runs the body of a name, by the tasks under the names of their bodies.
pub(crate) fn first_running(runners: &TaskNames, name: NameId) -> u32
    ensures { (numbers : Numbering) → runners.now ≡ by_units numbers → result ≡ first_running numbers name }
{
    match runners.task_named(name) {
        Some(task) => task,
        None => 0,
    }
}
