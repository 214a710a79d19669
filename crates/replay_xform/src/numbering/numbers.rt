// All numbers of a replay text.

ghost use Rattle.std.specs.Prelude.{◌≡◌, ◌++◌, ◌∷◌, [], pred, length, IfOk};
ghost use Rattle.syn_event.specs.AddedNames.{task_info};
ghost use Rattle.replay_asking.specs.Looked.{voice_of};
ghost use Rattle.replay_xform.specs.numbering.Replayed.{numbers_by};

use crate::numbering::entries::all_infos;
use crate::numbering::origins::{few, with_origins};
use ada_tree::{Memory, NameId, Names};
use replay_asking::Speaker;
use std::alloc::Global;
use syn_event::{Numbers, TaskInfo, name_of};

// A task that runs its own body.
fn task_info(names: &Names, name: NameId) -> TaskInfo
    ensures { result ≡ task_info names.now name }
{
    TaskInfo {
        name,
        added: name_of(names, name).starts_with(b"DED_"),
        unit: name,
        member: None,
    }
}

// The tasks, and the controller and the idle task behind them.
fn tasks_of(alloc: Global, x: &Speaker, names: &Names) -> Result<Vec<TaskInfo>, Memory>
    ensures { IfOk result (λ made. made.items ≡ (voice_of x.now).numbers.tasks ++ task_info names.now (voice_of x.now).added.control ∷ task_info names.now (voice_of x.now).added.idle ∷ []) }
{
    let numbers = x.numbers.numbers();
    let mut tasks = Vec::new(alloc);
    for info in &numbers.tasks {
        tasks.push(*info)?;
    }
    tasks.push(task_info(names, x.tables.added.control))?;
    tasks.push(task_info(names, x.tables.added.idle))?;
    Ok(tasks)
}

// The number of the last task.
fn last_task(numbers: &Numbers) -> u32
    ensures { result ≡ pred (length numbers.now.tasks) }
{
    let count = numbers.tasks.len() as u32;
    count.saturating_sub(1)
}

/// The numbers of a replay text with these names. The only error is want of memory, also where there are more tasks or entries than have numbers. It takes time linear in the tasks and entries.
pub fn numbers_by(alloc: Global, x: &Speaker, names: &Names) -> Result<Numbers, Memory>
    ensures { IfOk result (λ made. made ≡ numbers_by (voice_of x.now) names.now) }
{
    let numbers = x.numbers.numbers();
    let tasks = tasks_of(alloc, x, names)?;
    let entries = all_infos(alloc, x, last_task(numbers))?;
    let entries = with_origins(alloc, names, &entries)?;
    few(tasks.len())?;
    few(entries.len())?;
    Ok(Numbers {
        main: numbers.main,
        tasks,
        entries,
    })
}
