// The variants of the events for which a judge stands.

ghost use Rattle.std.specs.Prelude.{◌≡◌, ◌<◌, ◌^◌, ◌++◌, ◌∷◌, if◌then◌else◌, ℕ, List, [], true, false, take, length, option_copied, OnOk, OnErr};
ghost use Rattle.event_machine.specs.declared.Event as event;
ghost use Rattle.task_model.specs.Machine.{ProgramWithInputs};
ghost use Rattle.feasible.specs.Keeping.{StandsFor, is_feasible};
ghost use Rattle.race_variant.specs.Variants.{AreVariants};
ghost use Rattle.race_variant.specs.inner.Passing.{AreAnswers, AreTold};

use crate::adding::add_all;
use crate::seeing::count_of;
use ada_tree::Memory;
use event_machine::Event;
use feasible::Judge;
use std::alloc::Global;
use syn_event::Numbers;

/// Finds which events can come next after those that the judge was given, but for the event `skip`, and which tasks are open there: both lists are
/// replaced, and are in ascending order. After the end of the program both are empty.
///
/// The judge stands for what it stood for before. After want of memory both lists are empty, and the judge answers want of memory from then on.
pub fn variants(
    alloc: Global,
    j: &mut Judge,
    numbers: &Numbers,
    skip: Option<&Event>,
    found: &mut Vec<Event>,
    unsettled: &mut Vec<u32>,
) -> Result<(), Memory>
    requires feasible { is_feasible j.old.verdict ≡ true }
    requires numbers { numbers.now ≡ j.old.numbers }
    // for each list for which the judge stands
    ensures variants { (setup : ProgramWithInputs) (events : List event.Event) → StandsFor setup events j.old → OnOk result (AreVariants setup j.old.numbers j.old.bound events (option_copied skip.entry) found.new.items unsettled.new.items) }
    ensures stands { (setup : ProgramWithInputs) (events : List event.Event) → StandsFor setup events j.old → OnOk result (StandsFor setup events j.new) }
    ensures same_numbers { j.new.numbers ≡ j.old.numbers }
    ensures bound { j.new.bound ≡ j.old.bound }
    ensures taken { j.new.taken ≡ j.old.taken }
    ensures verdict { j.new.verdict ≡ j.old.verdict }
    ensures kept { OnOk result (j.old.lost ≡ false) }
    ensures none { OnErr result ((found.new.items ≡ []) × (unsettled.new.items ≡ [])) }
    ensures lost { OnErr result (j.new.lost ≡ true) }
{
    list_variants(alloc, j, numbers, skip, found, unsettled)
}

// The same of any judge; what is found is said of one whose events are feasible.
pub(crate) fn list_variants(
    alloc: Global,
    j: &mut Judge,
    numbers: &Numbers,
    skip: Option<&Event>,
    found: &mut Vec<Event>,
    unsettled: &mut Vec<u32>,
) -> Result<(), Memory>
    requires numbers { numbers.now ≡ j.old.numbers }
    ensures variants { (setup : ProgramWithInputs) (events : List event.Event) → StandsFor setup events j.old → is_feasible j.old.verdict ≡ true → OnOk result (AreVariants setup j.old.numbers j.old.bound events (option_copied skip.entry) found.new.items unsettled.new.items) }
    ensures stands { (setup : ProgramWithInputs) (events : List event.Event) → StandsFor setup events j.old → OnOk result (StandsFor setup events j.new) }
    ensures same_numbers { j.new.numbers ≡ j.old.numbers }
    ensures bound { j.new.bound ≡ j.old.bound }
    ensures taken { j.new.taken ≡ j.old.taken }
    ensures verdict { j.new.verdict ≡ j.old.verdict }
    ensures kept { OnOk result (j.old.lost ≡ false) }
    ensures none { OnErr result ((found.new.items ≡ []) × (unsettled.new.items ≡ [])) }
    ensures lost { OnErr result (j.new.lost ≡ true) }
{
    found.clear();
    unsettled.clear();
    match find_kept(alloc, j, numbers, skip, found, unsettled) {
        Ok(()) => Ok(()),
        Err(memory) => {
            found.clear();
            unsettled.clear();
            j.give_up();
            Err(memory)
        }
    }
}

// The same into empty lists; after want of memory they may have some.
fn find_kept(
    alloc: Global,
    j: &mut Judge,
    numbers: &Numbers,
    skip: Option<&Event>,
    found: &mut Vec<Event>,
    unsettled: &mut Vec<u32>,
) -> Result<(), Memory>
    requires numbers { numbers.now ≡ j.old.numbers }
    requires none { found.old.items ≡ [] }
    requires nobody { unsettled.old.items ≡ [] }
    ensures variants { (setup : ProgramWithInputs) (events : List event.Event) → StandsFor setup events j.old → is_feasible j.old.verdict ≡ true → OnOk result (AreVariants setup j.old.numbers j.old.bound events (option_copied skip.entry) found.new.items unsettled.new.items) }
    ensures stands { (setup : ProgramWithInputs) (events : List event.Event) → StandsFor setup events j.old → OnOk result (StandsFor setup events j.new) }
    ensures same_numbers { j.new.numbers ≡ j.old.numbers }
    ensures bound { j.new.bound ≡ j.old.bound }
    ensures taken { j.new.taken ≡ j.old.taken }
    ensures verdict { j.new.verdict ≡ j.old.verdict }
    ensures kept { OnOk result (j.old.lost ≡ false) }
{
    // this tells whether the judge is lost, and changes nothing for which it stands
    j.settle(0)?;
    find(alloc, j, numbers, skip, found, unsettled)
}

// The same of a judge that is not lost.
fn find(
    alloc: Global,
    j: &mut Judge,
    numbers: &Numbers,
    skip: Option<&Event>,
    found: &mut Vec<Event>,
    unsettled: &mut Vec<u32>,
) -> Result<(), Memory>
    requires numbers { numbers.now ≡ j.old.numbers }
    requires none { found.old.items ≡ [] }
    requires nobody { unsettled.old.items ≡ [] }
    ensures variants { (setup : ProgramWithInputs) (events : List event.Event) → StandsFor setup events j.old → is_feasible j.old.verdict ≡ true → OnOk result (AreVariants setup j.old.numbers j.old.bound events (option_copied skip.entry) found.new.items unsettled.new.items) }
    ensures stands { (setup : ProgramWithInputs) (events : List event.Event) → StandsFor setup events j.old → OnOk result (StandsFor setup events j.new) }
    ensures same_numbers { j.new.numbers ≡ j.old.numbers }
    ensures bound { j.new.bound ≡ j.old.bound }
    ensures taken { j.new.taken ≡ j.old.taken }
    ensures verdict { j.new.verdict ≡ j.old.verdict }
{
    if j.ended() {
        return Ok(());
    }
    let mut settled = Vec::new(alloc);
    settle_all(j, numbers, &mut settled, unsettled)?;
    add_all(j, numbers, &settled, skip, found)
}

// Runs all tasks on: of each whether it has come to rest, and those that have not.
fn settle_all(
    j: &mut Judge,
    numbers: &Numbers,
    settled: &mut Vec<bool>,
    unsettled: &mut Vec<u32>,
) -> Result<(), Memory>
    requires numbers { numbers.now ≡ j.old.numbers }
    requires none { settled.old.items ≡ [] }
    requires nobody { unsettled.old.items ≡ [] }
    ensures answers { OnOk result (AreAnswers j.new.tasks settled.new.items) }
    ensures size { OnOk result (length settled.new.items ≡ length numbers.now.tasks) }
    ensures few { OnOk result (length numbers.now.tasks < 2 ^ 32) }
    ensures told { (setup : ProgramWithInputs) (events : List event.Event) → StandsFor setup events j.old → OnOk result (AreTold setup j.old.numbers j.old.bound (take j.old.taken events) settled.new.items unsettled.new.items) }
    ensures stands { (setup : ProgramWithInputs) (events : List event.Event) → StandsFor setup events j.old → OnOk result (StandsFor setup events j.new) }
    ensures same_numbers { j.new.numbers ≡ j.old.numbers }
    ensures bound { j.new.bound ≡ j.old.bound }
    ensures taken { j.new.taken ≡ j.old.taken }
    ensures ended { j.new.ended ≡ j.old.ended }
    ensures verdict { j.new.verdict ≡ j.old.verdict }
{
    let count = count_of(numbers);
    for t in 0..count {
        let rests = j.settle(t)?;
        note(rests, t, settled, unsettled)?;
    }
    Ok(())
}

// Notes whether the task has come to rest.
fn note(
    rests: bool,
    t: u32,
    settled: &mut Vec<bool>,
    unsettled: &mut Vec<u32>,
) -> Result<(), Memory>
    ensures settled { OnOk result (settled.new.items ≡ settled.old.items ++ rests ∷ []) }
    ensures unsettled { OnOk result (unsettled.new.items ≡ (if rests then unsettled.old.items else unsettled.old.items ++ t ∷ [])) }
{
    settled.push(rests)?;
    if !rests {
        unsettled.push(t)?;
    }
    Ok(())
}
