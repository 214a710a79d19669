//! Progress by events alone: what a list of events tells of a run without the program's text, and which event it lets come next.
//! The crate has no functions of its own but the one that carries the laws.

ghost use Rattle.event_machine.specs.progress.Laws.{FeasibleIsAdmitted, ToldByEvents};

/// Carries the laws of progress, for tasks with states of the type `L`: after every run of a program whose tasks keep the rules of tasks each task is
/// closed, served and called as the events of the run tell (`told`); and an event that can happen after a feasible sequence is admitted by what is known
/// after it (`admitted`).
pub fn laws<L>()
    ensures told { ToldByEvents L }
    ensures admitted { FeasibleIsAdmitted L }
{}
