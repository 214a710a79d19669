// How a task starts.

ghost use Rattle.std.specs.Prelude.{◌≡◌, IfOk};
ghost use Rattle.task_model.specs.Starting.{started_in, unit_of};
ghost use Rattle.task_steps.specs.start.Plain.{plain_unit};
ghost use Rattle.task_waits.specs.Room.{widest_body};
ghost use Rattle.task_local.specs.inner.InOrder.{task_of, IsInOrder};

use crate::task_parts::TaskParts;
use ada_tree::Memory;
use std::alloc::Global;
use task_links::Links;
use task_steps::start::{Unit, start, unit_of};
use task_waits::{Stand, widest_wait};

// The room that the choices of the waits of a unit take at most.
fn widest_in(unit: Unit) -> usize
    ensures { result ≡ widest_body (plain_unit unit.entry).body }
{
    match unit.body {
        Some(body) => widest_wait(body),
        None => 0,
    }
}

impl<'p> TaskParts<'p> {
    /// The task of this number at the first statement of its body, with room for its widest wait.
    pub(crate) fn start(
        alloc: Global,
        links: &'p Links<'p>,
        task: u32,
        input: &[i32],
    ) -> Result<TaskParts<'p>, Memory>
        ensures ok { IfOk result (λ p. task_of p ≡ started_in links.now task (unit_of links.now.program links.now.numbers task) input.now) }
        ensures in_order { IfOk result (λ p. IsInOrder p) }
    {
        let widest = widest_in(unit_of(links, task));
        if widest > u32::MAX as usize {
            return Err(Memory);
        }
        let state = start(alloc, links, task, input)?;
        let choices = Vec::with_capacity(alloc, widest)?;
        let mut parts = TaskParts {
            state,
            passed: 0,
            widest,
            stand: Stand::Step,
            choices,
        };
        parts.renew();
        Ok(parts)
    }
}
