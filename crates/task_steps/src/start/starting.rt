// The start of a task (9.3).

ghost use Rattle.std.specs.Prelude.{◌≡◌, [], None, IfOk};
ghost use Rattle.task_model.specs.Frames.{OwnBody};
ghost use Rattle.task_model.specs.Starting.{started_in, unit_of};
ghost use Rattle.task_model.specs.Steps.{block_handlers, block_stmts};
ghost use Rattle.task_steps.specs.start.Plain.{plain_unit};
ghost use Rattle.task_state.specs.Plain.{plain_task};

use crate::start::objects::objects_of;
use crate::start::units::{Unit, unit_of};
use ada_tree::Memory;
use std::alloc::Global;
use task_links::Links;
use task_state::TaskState;
use task_state::frames::Frames;

// The frames of a unit before its first statement.
fn frames_of<'p>(alloc: Global, unit: Unit<'p>) -> Frames<'p>
    ensures { result.stack ≡ record { top = record { rest = block_stmts (plain_unit unit.entry).body; place = OwnBody (block_handlers (plain_unit unit.entry).body) None }; outer = [] } }
{
    match unit.body {
        Some(body) => Frames::new(alloc, &body.stmts, &body.handlers),
        None => Frames::new(alloc, &[], &[]),
    }
}

/// The task of a number as the program starts, at the first statement of its body, with its objects, with these integers to read, and
/// with nothing written (9.3). It fails by want of memory alone.
pub fn start<'p>(
    alloc: Global,
    links: &'p Links<'p>,
    number: u32,
    input: &[i32],
) -> Result<TaskState<'p>, Memory>
    ensures { IfOk result (λ s. plain_task s ≡ started_in links.now number (unit_of links.now.program links.now.numbers number) input.now) }
{
    let unit = unit_of(links, number);
    let objects = objects_of(alloc, links.types(), unit.in_main, unit.decls)?;
    let input = Vec::from_slice(alloc, input)?;
    Ok(TaskState {
        links,
        number,
        frames: frames_of(alloc, unit),
        objects,
        input,
        next: 0,
        output: Vec::new(alloc),
    })
}
