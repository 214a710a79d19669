//! What the events of a run tell by themselves is so of the tasks of a program, and refuses nothing that can happen. What tasks offer has numbers that the
//! program has (`offers`). Programs with their rewritings, by computation (`examples`, `rewritten`).
#![tactic(auto)]

pub mod examples;
pub mod offers;
pub mod rewritten;

ghost use Rattle.std.specs.Prelude.{◌≡◌};
ghost use Rattle.event_machine.specs.progress.Known.{admits};
ghost use Rattle.syn_event.specs.Numbering.{owner_of};
ghost use Rattle.progress_law.specs.Laws.{KnownByEvent, EventsTell, FeasibleIsAdmitted, JudgedIsAdmitted, NeverRefuses, AreInstances, HaltedIsOver, PickedIsRun, PickedEventsTell};

use control_script::progress::Progress;
use event_machine::Event;
use syn_event::Numbers;

/// Carries the laws of progress for the runs of a program, for every tree, table of types, list of inputs and numbers. What is known goes on event by
/// event (`step_by_step`). After each run the tasks are closed, served and called as its events tell, and the program has ended as they tell (`told`). An
/// event that is feasible next is admitted by what the events before it tell (`admitted`); so each event of a sequence that is judged feasible is
/// (`judged`). Where a run halts by itself no action applies any more (`over`). And each program is an instance of the laws of abstract tasks
/// (`instance`). The function does nothing: whoever needs a law calls it for its clauses.
pub fn laws()
    ensures step_by_step { KnownByEvent }
    ensures told { EventsTell }
    ensures admitted { FeasibleIsAdmitted }
    ensures judged { JudgedIsAdmitted }
    ensures over { HaltedIsOver }
    ensures instance { AreInstances }
{}

/// Carries that the runs that choices pick, of which `run` tells the events, are runs (`runs`), so that what their events tell is so of their machines
/// (`told`), for choices that are kept as a `C`. The function does nothing.
pub fn picked_laws<C>()
    ensures runs { PickedIsRun C }
    ensures told { PickedEventsTell C }
{}

/// Whether the event can come next, as far as the progress tells. Where the progress stands for some events of the program, and the event is feasible
/// next after these, the answer is yes, whatever the inputs are.
pub fn can_come(progress: &Progress, e: &Event, numbers: &Numbers) -> bool
    ensures asked { result ≡ admits (owner_of numbers.now) progress.now e.now }
    ensures never_refuses { NeverRefuses numbers.now progress.now e.now result }
{
    progress.admits(e, numbers)
}
