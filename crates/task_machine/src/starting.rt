// The tasks of a program as it starts.

ghost use Rattle.std.specs.Prelude.{◌≡◌, ◌<◌, ◌^◌, [], length, slice_index_or, vec_len, IfOk};
ghost use Rattle.event_machine.specs.States.{live};
ghost use Rattle.task_model.specs.Starting.{started};
ghost use Rattle.task_model.specs.Machine.{first_tasks};
ghost use Rattle.task_machine.specs.Table.{setup_in};

use crate::seats::Seat;
use ada_tree::Memory;
use ada_value::Inputs;
use event_machine::Standing;
use std::alloc::Global;
use task_links::Links;
use task_local::LocalTask;

/// The tasks of a program, each live at its first statement.
pub fn start_all<'p>(
    alloc: Global,
    links: &'p Links<'p>,
    inputs: &Inputs,
) -> Result<Vec<Seat<'p>>, Memory>
    ensures started { IfOk result (λ seats. seats.items ≡ first_tasks (setup_in links.now inputs.now) links.now.numbers (length links.now.numbers.tasks)) }
    ensures few { IfOk result (λ seats. vec_len seats < 2 ^ 32) }
{
    match u32::try_from(links.numbers().tasks.len()) {
        Ok(count) => start_first(alloc, links, inputs, count),
        Err(_) => Err(Memory),
    }
}

// The first tasks, so many.
fn start_first<'p>(
    alloc: Global,
    links: &'p Links<'p>,
    inputs: &Inputs,
    count: u32,
) -> Result<Vec<Seat<'p>>, Memory>
    ensures started { IfOk result (λ seats. seats.items ≡ first_tasks (setup_in links.now inputs.now) links.now.numbers count) }
    ensures few { IfOk result (λ seats. vec_len seats < 2 ^ 32) }
{
    let mut seats = Vec::new(alloc);
    for t in 0..count {
        seats.push(start_one(alloc, links, inputs, t)?)?;
    }
    Ok(seats)
}

// The task of this number, live at its first statement.
fn start_one<'p>(
    alloc: Global,
    links: &'p Links<'p>,
    inputs: &Inputs,
    t: u32,
) -> Result<Seat<'p>, Memory>
    ensures { IfOk result (λ seat. seat ≡ live (started links.now inputs.now t)) }
{
    let local = LocalTask::start(alloc, links, t, input_of(inputs, t))?;
    Ok(Seat {
        local,
        standing: Standing::Live,
    })
}

// The input of the task of this number; a task past their end has none.
fn input_of(inputs: &Inputs, t: u32) -> &[i32]
    ensures { result.now ≡ slice_index_or inputs.now t [] }
{
    match inputs.lists.get(t as usize) {
        Some(list) => list.as_slice(),
        None => &[],
    }
}
