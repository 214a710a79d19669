// Adding what can come next to a list, letter by letter.

ghost use Rattle.std.specs.Prelude.{◌≡◌, ◌<◌, ◌^◌, ◌+◌, [], ◌∷◌, Some, map, length, option_copied, OnOk};
ghost use Rattle.std.specs.Bool.{Decides};
ghost use Rattle.std.specs.List.{filter_map};
ghost use Rattle.event_machine.specs.declared.Event.TheVariants as event;
ghost use Rattle.race_variant.specs.inner.Passing.{AreAnswers, AreFound, IsAdded, AreAllAdded, seen_at, offer_seen};
ghost use Rattle.race_variant.specs.inner.Proposing.{place_of, delay_number, delays_in};

use crate::proposing::{Letter, propose};
use crate::seeing::{count_of, offered};
use ada_tree::Memory;
use event_machine::{Choice, Event};
use feasible::Judge;
use syn_event::Numbers;
use task_local::Offer;

// Adds the events that can come next, but the one that is skipped.
pub(crate) fn add_all(
    j: &Judge,
    numbers: &Numbers,
    settled: &[bool],
    skip: Option<&Event>,
    found: &mut Vec<Event>,
) -> Result<(), Memory>
    requires answers { AreAnswers j.now.tasks settled.now }
    requires told { length settled.now ≡ length numbers.now.tasks }
    requires few { length numbers.now.tasks < 2 ^ 32 }
    requires none { found.old.items ≡ [] }
    ensures { OnOk result (AreFound numbers.now (seen_at j.now.tasks settled.now) (option_copied skip.entry) 10 0 found.new.items) }
{
    add_letter(j, numbers, settled, skip, Letter::R, found)?;
    add_letter(j, numbers, settled, skip, Letter::E, found)?;
    add_letter(j, numbers, settled, skip, Letter::S, found)?;
    add_letter(j, numbers, settled, skip, Letter::D, found)?;
    add_letter(j, numbers, settled, skip, Letter::C, found)?;
    add_letter(j, numbers, settled, skip, Letter::T, found)?;
    add_letter(j, numbers, settled, skip, Letter::F, found)?;
    add_letter(j, numbers, settled, skip, Letter::X, found)?;
    add_letter(j, numbers, settled, skip, Letter::B, found)?;
    add_letter(j, numbers, settled, skip, Letter::Z, found)
}

// Adds those of a letter, by ascending tasks.
fn add_letter(
    j: &Judge,
    numbers: &Numbers,
    settled: &[bool],
    skip: Option<&Event>,
    letter: Letter,
    found: &mut Vec<Event>,
) -> Result<(), Memory>
    requires answers { AreAnswers j.now.tasks settled.now }
    requires told { length settled.now ≡ length numbers.now.tasks }
    requires few { length numbers.now.tasks < 2 ^ 32 }
    requires found { AreFound numbers.now (seen_at j.now.tasks settled.now) (option_copied skip) (place_of letter) 0 found.old.items }
    ensures { OnOk result (AreFound numbers.now (seen_at j.now.tasks settled.now) (option_copied skip.entry) (place_of letter + 1) 0 found.new.items) }
{
    let count = count_of(numbers);
    for t in 0..count {
        add_of(j, numbers, settled, skip, letter, t, found)?;
    }
    Ok(())
}

// Adds those of a letter in which the task acts.
fn add_of(
    j: &Judge,
    numbers: &Numbers,
    settled: &[bool],
    skip: Option<&Event>,
    letter: Letter,
    t: u32,
    found: &mut Vec<Event>,
) -> Result<(), Memory>
    requires answers { AreAnswers j.now.tasks settled.now }
    requires told { length settled.now ≡ length numbers.now.tasks }
    requires few { length numbers.now.tasks < 2 ^ 32 }
    requires found { AreFound numbers.now (seen_at j.now.tasks settled.now) (option_copied skip) (place_of letter) t found.old.items }
    ensures { OnOk result (AreFound numbers.now (seen_at j.now.tasks settled.now) (option_copied skip.entry) (place_of letter) (t + 1) found.new.items) }
{
    if let Letter::D = letter {
        return add_delays(j, settled, skip, t, found);
    }
    match propose(j, numbers, settled, letter, t) {
        Some(e) => add(found, skip, e),
        None => Ok(()),
    }
}

// Adds the delays of the task's wait.
fn add_delays(
    j: &Judge,
    settled: &[bool],
    skip: Option<&Event>,
    t: u32,
    found: &mut Vec<Event>,
) -> Result<(), Memory>
    requires { AreAnswers j.now.tasks settled.now }
    ensures { OnOk result (AreAllAdded (option_copied skip.entry) (map (event.D t) (delays_in (offer_seen (seen_at j.now.tasks settled.now t)))) found.old.items found.new.items) }
{
    match offered(j, settled, t) {
        Offer::Wait(choices) => add_choices(choices, skip, t, found),
        _ => Ok(()),
    }
}

// Adds the delays among the choices.
fn add_choices(
    choices: &[Choice],
    skip: Option<&Event>,
    t: u32,
    found: &mut Vec<Event>,
) -> Result<(), Memory>
    ensures { OnOk result (AreAllAdded (option_copied skip.entry) (map (event.D t) (filter_map delay_number choices.now)) found.old.items found.new.items) }
{
    for choice in choices {
        add_choice(choice, skip, t, found)?;
    }
    Ok(())
}

// Adds the choice, where it is a delay.
fn add_choice(
    choice: &Choice,
    skip: Option<&Event>,
    t: u32,
    found: &mut Vec<Event>,
) -> Result<(), Memory>
    ensures { OnOk result (AreAllAdded (option_copied skip.entry) (map (event.D t) (filter_map delay_number (choice.now ∷ []))) found.old.items found.new.items) }
{
    match *choice {
        Choice::Delay { k } => add(found, skip, Event::D { a: t, k }),
        _ => Ok(()),
    }
}

// Adds an event, if it is not the one that is skipped.
fn add(found: &mut Vec<Event>, skip: Option<&Event>, e: Event) -> Result<(), Memory>
    ensures { OnOk result (IsAdded (option_copied skip.entry) e found.old.items found.new.items) }
{
    if !is_skipped(skip, &e) {
        found.push(e)?;
    }
    Ok(())
}

fn is_skipped(skip: Option<&Event>, e: &Event) -> bool
    ensures { Decides result (option_copied skip.entry ≡ Some e.now) }
{
    match skip {
        Some(f) => is_same(f, e),
        None => false,
    }
}

fn is_same(e: &Event, f: &Event) -> bool
    ensures { Decides result (e.now ≡ f.now) }
{
    *e == *f
}
