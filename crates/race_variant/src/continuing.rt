// Going on from the events for which a judge stands, by choices.

ghost use Rattle.std.specs.Prelude.{◌≡◌, ◌≤◌, ◌<◌, ◌+◌, ◌^◌, ◌%◌, ◌++◌, ◌∷◌, ℕ, List, [], true, false, Some, None, length, slice_get, IfOk, OnOk, OnErr};
ghost use Rattle.std.specs.Fn.{iterate};
ghost use Rattle.event_machine.specs.declared.Event as event;
ghost use Rattle.task_model.specs.Machine.{ProgramWithInputs};
ghost use Rattle.feasible.specs.Keeping.{StandsFor, is_feasible};
ghost use Rattle.race_variant.specs.Continuing.{AreChosen, IsContinued};
ghost use Rattle.race_variant.specs.inner.Choosing.{HaltsBy, HasSome, IsOneMore, LeavesFeasible, AreChosenBy, HasGoneOn, HasEnded};

use crate::finding::list_variants;
use ada_tree::Memory;
use ded_io::Chooser;
use event_machine::Event;
use feasible::Judge;
use std::alloc::Global;
use syn_event::Numbers;

/// How going on ends.
#[derive(Clone, Copy, Debug, PartialEq, Eq, Drop)]
pub enum GoEnd {
    /// The last event is the end of the program.
    Ended,
    /// Nothing can come next, and no task is open.
    Stuck,
    /// Nothing can come next, and some task is open.
    Open,
    /// As many events are chosen as were asked for, and something can come next still.
    Count,
}

/// Goes on from the events that the judge was given: each time the next choice picks one of the events that can come next, which the judge is given
/// and which is put behind those in `chosen`. It goes on until the program has ended, until nothing can come next, or until `most` events are chosen.
///
/// Then the judge stands for what it stood for before, followed by `chosen`. After want of memory `chosen` has the events that were chosen so far, and
/// the judge answers want of memory from then on.
pub fn go_on<C: Chooser>(
    alloc: Global,
    j: &mut Judge,
    numbers: &Numbers,
    choices: &mut C,
    most: u32,
    chosen: &mut Vec<Event>,
) -> Result<GoEnd, Memory>
    requires feasible { is_feasible j.old.verdict ≡ true }
    requires numbers { numbers.now ≡ j.old.numbers }
    requires none { chosen.old.items ≡ [] }
    requires few { j.old.taken + most < 2 ^ 32 }
    // for each list for which the judge stands
    ensures continued { (setup : ProgramWithInputs) (events : List event.Event) → StandsFor setup events j.old → IfOk result (IsContinued C.word C.next setup j.old.numbers j.old.bound events choices.old most chosen.new.items) }
    ensures stands { (setup : ProgramWithInputs) (events : List event.Event) → StandsFor setup events j.old → OnOk result (StandsFor setup (events ++ chosen.new.items) j.new) }
    ensures feasible { (setup : ProgramWithInputs) (events : List event.Event) → StandsFor setup events j.old → is_feasible j.new.verdict ≡ true }
    ensures so_far { (setup : ProgramWithInputs) (events : List event.Event) → StandsFor setup events j.old → OnErr result (AreChosen C.word C.next setup j.old.numbers j.old.bound events choices.old chosen.new.items) }
    ensures within { length chosen.new.items ≤ most }
    ensures chooser { OnOk result (choices.new ≡ iterate C.next (length chosen.new.items) choices.old) }
    ensures same_numbers { j.new.numbers ≡ j.old.numbers }
    ensures bound { j.new.bound ≡ j.old.bound }
    ensures kept { OnOk result (j.old.lost ≡ false) }
    ensures lost { OnErr result (j.new.lost ≡ true) }
{
    match go_on_kept(alloc, j, numbers, choices, most, chosen) {
        Ok(end) => Ok(end),
        Err(memory) => {
            j.give_up();
            Err(memory)
        }
    }
}

// The same; after want of memory the judge may not be lost.
fn go_on_kept<C: Chooser>(
    alloc: Global,
    j: &mut Judge,
    numbers: &Numbers,
    choices: &mut C,
    most: u32,
    chosen: &mut Vec<Event>,
) -> Result<GoEnd, Memory>
    requires feasible { is_feasible j.old.verdict ≡ true }
    requires numbers { numbers.now ≡ j.old.numbers }
    requires none { chosen.old.items ≡ [] }
    requires few { j.old.taken + most < 2 ^ 32 }
    ensures gone { OnOk result (HasGoneOn C.word C.next j.old choices.old chosen.new.items j.new choices.new) }
    ensures ended { IfOk result (HasEnded j.old most chosen.new.items) }
    ensures so_far { AreChosenBy C.word C.next j.old choices.old chosen.new.items j.new }
    ensures within { length chosen.new.items ≤ most }
    ensures kept { OnOk result (j.old.lost ≡ false) }
{
    let mut found = Vec::new(alloc);
    for _turn in 0..most {
        match halted(alloc, j, numbers, &mut found)? {
            Some(end) => return Ok(end),
            None => choose(j, &found, choices, chosen)?,
        }
    }
    match halted(alloc, j, numbers, &mut found)? {
        Some(end) => Ok(end),
        None => Ok(GoEnd::Count),
    }
}

// How it ends here by itself, if it does; else `found` becomes the list of what can come next.
fn halted(
    alloc: Global,
    j: &mut Judge,
    numbers: &Numbers,
    found: &mut Vec<Event>,
) -> Result<Option<GoEnd>, Memory>
    requires numbers { numbers.now ≡ j.old.numbers }
    ensures halts { (setup : ProgramWithInputs) (events : List event.Event) → StandsFor setup events j.old → is_feasible j.old.verdict ≡ true → IfOk result (HaltsBy setup j.old.numbers j.old.bound events found.new.items) }
    ensures some { IfOk result (HasSome found.new.items) }
    ensures stands { (setup : ProgramWithInputs) (events : List event.Event) → StandsFor setup events j.old → OnOk result (StandsFor setup events j.new) }
    ensures same_numbers { j.new.numbers ≡ j.old.numbers }
    ensures bound { j.new.bound ≡ j.old.bound }
    ensures taken { j.new.taken ≡ j.old.taken }
    ensures verdict { j.new.verdict ≡ j.old.verdict }
    ensures kept { OnOk result (j.old.lost ≡ false) }
{
    let mut unsettled = Vec::new(alloc);
    list_variants(alloc, j, numbers, None, found, &mut unsettled)?;
    if !found.is_empty() {
        Ok(None)
    } else if j.ended() {
        Ok(Some(GoEnd::Ended))
    } else if unsettled.is_empty() {
        Ok(Some(GoEnd::Stuck))
    } else {
        Ok(Some(GoEnd::Open))
    }
}

// Gives the judge the event at the place that the next choice names, and puts it behind those that are chosen.
fn choose<C: Chooser>(
    j: &mut Judge,
    found: &[Event],
    choices: &mut C,
    chosen: &mut Vec<Event>,
) -> Result<(), Memory>
    requires some { 0 < length found.now }
    requires few { j.old.taken + 1 < 2 ^ 32 }
    ensures one { OnOk result (IsOneMore C.word C.next found.now choices.old choices.new chosen.old.items chosen.new.items j.old j.new) }
    ensures feasible { LeavesFeasible found.now j.old j.new }
    ensures unchanged { OnErr result (chosen.new.items ≡ chosen.old.items) }
    ensures same_numbers { j.new.numbers ≡ j.old.numbers }
    ensures bound { j.new.bound ≡ j.old.bound }
    ensures taken { j.new.taken ≤ j.old.taken + 1 }
    ensures kept { OnOk result (j.new.lost ≡ false → j.old.lost ≡ false) }
{
    let event = pick(found, choices)?;
    let _verdict = j.next(&event)?;
    chosen.push(event)?;
    Ok(())
}

// The event at the place that the next choice names. A legal original has never 2^32 that can come next (`progress_law: offers`, clause `few`).
fn pick<C: Chooser>(found: &[Event], choices: &mut C) -> Result<Event, Memory>
    requires { 0 < length found.now }
    ensures event { IfOk result (λ e. slice_get found.now (C.word choices.old % length found.now) ≡ Some e) }
    ensures after { OnOk result (choices.new ≡ C.next choices.old) }
{
    match u32::try_from(found.len()) {
        Ok(count) => {
            let place = choices.pick(count);
            Ok(found[place as usize])
        }
        Err(_) => Err(Memory),
    }
}
