//! The project's own progress by events alone is one that the law of replaying asks for.
//! The module has no functions of its own but the one that carries the law.

ghost use Rattle.run_laws.specs.telling.Laws.{KnowsRuns, MetByEvents};

/// Carries what the progress by events is, for tasks with states of the type `L`: for every program whose tasks keep the rules of tasks, from its opening
/// state on, it knows of each world that is reached what a progress of the law of replaying is to know (`knows`). And the premises of that law are met
/// together with this progress, by every program with every sequence (`met`).
pub fn laws<L>()
    ensures knows { KnowsRuns L }
    ensures met { MetByEvents L }
{}
