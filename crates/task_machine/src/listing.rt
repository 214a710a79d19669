// The list of the actions that apply.

ghost use Rattle.std.specs.Prelude.{◌≡◌, ◌++◌, ◌<◌, ◌^◌, [], ◌∷◌, length, filter, option_to_list, OnOk, true};
ghost use Rattle.std.specs.List.{filter_map};
ghost use Rattle.event_machine.specs.Applying.{actions_of, actions_below, delay_actions, delay_action};
ghost use Rattle.event_machine.specs.States.{is_live, is_waiting, is_queued};
ghost use Rattle.task_model.specs.TaskOps.{task_ops};
ghost use Rattle.task_machine.specs.Table.{applies_in, seen_in, seat_of, offer_in_seat};

use crate::Action;
use crate::applying::{applies, has_step};
use crate::seats::{Seat, is_live, is_queued, is_waiting, offer_at, standing_at};
use ada_tree::Memory;
use event_machine::Choice;
use syn_event::Numbers;
use task_local::Offer;

// Appends the actions of all tasks that apply, by ascending tasks.
pub(crate) fn list_tasks(
    seats: &[Seat],
    line: &[u32],
    numbers: &Numbers,
    out: &mut Vec<Action>,
) -> Result<(), Memory>
    requires { length seats.now < 2 ^ 32 }
    ensures { OnOk result (out.new.items ≡ out.old.items ++ filter (applies_in numbers.now seats.now line.now) (actions_below task_ops (seen_in seats.now line.now) (length seats.now))) }
{
    let count = seats.len() as u32;
    for t in 0..count {
        list_task(seats, line, numbers, t, out)?;
    }
    Ok(())
}

// Appends the actions of one task that apply, in their order. What cannot apply where the task stands so is not asked.
fn list_task(
    seats: &[Seat],
    line: &[u32],
    numbers: &Numbers,
    t: u32,
    out: &mut Vec<Action>,
) -> Result<(), Memory>
    requires { length seats.now < 2 ^ 32 }
    ensures { OnOk result (out.new.items ≡ out.old.items ++ filter (applies_in numbers.now seats.now line.now) (actions_of task_ops (seen_in seats.now line.now) t)) }
{
    let standing = standing_at(seats, t);
    if is_live(standing) {
        return list_live(seats, line, numbers, t, out);
    }
    if is_waiting(standing) {
        return list_waiting(seats, line, numbers, t, out);
    }
    if is_queued(standing) {
        return list_queued(seats, line, numbers, t, out);
    }
    push_if(seats, line, numbers, Action::Start { c: t }, out)?;
    Ok(())
}

// The same of a live task.
fn list_live(
    seats: &[Seat],
    line: &[u32],
    numbers: &Numbers,
    t: u32,
    out: &mut Vec<Action>,
) -> Result<(), Memory>
    requires few { length seats.now < 2 ^ 32 }
    requires live { is_live (seat_of seats.now t).standing ≡ true }
    ensures { OnOk result (out.new.items ≡ out.old.items ++ filter (applies_in numbers.now seats.now line.now) (actions_of task_ops (seen_in seats.now line.now) t)) }
{
    if has_step(seats, t) {
        push_if(seats, line, numbers, Action::Local { t }, out)?;
        return Ok(());
    }
    let actions = [
        Action::Arrive { t },
        Action::Start { c: t },
        Action::Finish { a: t },
        Action::CallElse { c: t },
        Action::Fail { c: t },
        Action::Complete { a: t },
        Action::Abort { t },
    ];
    list(seats, line, numbers, &actions, out)?;
    Ok(())
}

// The same of a task that waits.
fn list_waiting(
    seats: &[Seat],
    line: &[u32],
    numbers: &Numbers,
    t: u32,
    out: &mut Vec<Action>,
) -> Result<(), Memory>
    requires few { length seats.now < 2 ^ 32 }
    requires waiting { is_waiting (seat_of seats.now t).standing ≡ true }
    ensures { OnOk result (out.new.items ≡ out.old.items ++ filter (applies_in numbers.now seats.now line.now) (actions_of task_ops (seen_in seats.now line.now) t)) }
{
    let actions = [Action::Start { c: t }, Action::Else { a: t }];
    list(seats, line, numbers, &actions, out)?;
    list_delays(seats, line, numbers, t, out)?;
    Ok(())
}

// The same of a task that is queued.
fn list_queued(
    seats: &[Seat],
    line: &[u32],
    numbers: &Numbers,
    t: u32,
    out: &mut Vec<Action>,
) -> Result<(), Memory>
    requires few { length seats.now < 2 ^ 32 }
    requires queued { is_queued (seat_of seats.now t).standing ≡ true }
    ensures { OnOk result (out.new.items ≡ out.old.items ++ filter (applies_in numbers.now seats.now line.now) (actions_of task_ops (seen_in seats.now line.now) t)) }
{
    let actions = [
        Action::Start { c: t },
        Action::Expire { c: t },
        Action::Fail { c: t },
    ];
    list(seats, line, numbers, &actions, out)?;
    Ok(())
}

// Appends the delays of the task's wait that apply.
fn list_delays(
    seats: &[Seat],
    line: &[u32],
    numbers: &Numbers,
    t: u32,
    out: &mut Vec<Action>,
) -> Result<(), Memory>
    requires { length seats.now < 2 ^ 32 }
    ensures { OnOk result (out.new.items ≡ out.old.items ++ filter (applies_in numbers.now seats.now line.now) (delay_actions t (offer_in_seat (seat_of seats.now t)))) }
{
    match offer_at(seats, t) {
        Offer::Wait(choices) => list_choices(seats, line, numbers, t, choices, out),
        _ => Ok(()),
    }
}

// Appends the delays among these choices of the task that apply.
fn list_choices(
    seats: &[Seat],
    line: &[u32],
    numbers: &Numbers,
    t: u32,
    choices: &[Choice],
    out: &mut Vec<Action>,
) -> Result<(), Memory>
    requires { length seats.now < 2 ^ 32 }
    ensures { OnOk result (out.new.items ≡ out.old.items ++ filter (applies_in numbers.now seats.now line.now) (filter_map (delay_action t) choices.now)) }
{
    for choice in choices {
        list_choice(seats, line, numbers, t, choice, out)?;
    }
    Ok(())
}

// Appends the delay that the choice is, if it is one and applies.
fn list_choice(
    seats: &[Seat],
    line: &[u32],
    numbers: &Numbers,
    t: u32,
    choice: &Choice,
    out: &mut Vec<Action>,
) -> Result<(), Memory>
    requires { length seats.now < 2 ^ 32 }
    ensures { OnOk result (out.new.items ≡ out.old.items ++ filter (applies_in numbers.now seats.now line.now) (option_to_list (delay_action t choice.now))) }
{
    match *choice {
        Choice::Delay { k } => push_if(seats, line, numbers, Action::Delay { a: t, k }, out),
        _ => Ok(()),
    }
}

// Appends those of these actions that apply.
fn list(
    seats: &[Seat],
    line: &[u32],
    numbers: &Numbers,
    actions: &[Action],
    out: &mut Vec<Action>,
) -> Result<(), Memory>
    requires { length seats.now < 2 ^ 32 }
    ensures { OnOk result (out.new.items ≡ out.old.items ++ filter (applies_in numbers.now seats.now line.now) actions.now) }
{
    for action in actions {
        push_if(seats, line, numbers, *action, out)?;
    }
    Ok(())
}

// Appends the action if it applies.
pub(crate) fn push_if(
    seats: &[Seat],
    line: &[u32],
    numbers: &Numbers,
    action: Action,
    out: &mut Vec<Action>,
) -> Result<(), Memory>
    requires { length seats.now < 2 ^ 32 }
    ensures { OnOk result (out.new.items ≡ out.old.items ++ filter (applies_in numbers.now seats.now line.now) (action ∷ [])) }
{
    if applies(seats, line, numbers, action) {
        out.push(action)?;
    }
    Ok(())
}
