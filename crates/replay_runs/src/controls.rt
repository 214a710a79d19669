//! At what the controller and the idle task of a replay text stand. The module has no functions of its own but the one that carries the
//! laws.

pub mod bodies;
pub mod formed;
pub mod images;
pub mod indices;
pub mod meanings;
pub mod permits;
pub mod replayed;
pub mod translated;

ghost use Rattle.replay_runs.specs.controls.Asking.{LegalAsksController};
ghost use Rattle.replay_runs.specs.controls.Imitating.{LegalImitatesController, LegalStartsWithScript};
ghost use Rattle.replay_runs.specs.controls.Laws.{IdleWaits, LegalHasController, LegalMakesScript, LegalStartsThere};

/// Carries the laws of the two tasks that a replay text adds. In each replay text of a legal program the controller starts as the one that makes the
/// script of the sequence, and the idle task before its wait (`starts`). The idle task waits for a call that never comes, or terminates
/// (`idle`). The text is as the laws of tables ask of a program with a controller (`controller`), which can make the script of known events
/// (`makes`). So the controller does what the law of replaying asks of it, whatever operations are left that it
/// can make (`imitates`), and comes from its start to before the law's script (`script`). The other tasks call the controller where
/// they ask and where they say that they are done, and the idle task where they stop. As three numbers come back the variables
/// of their permits hold them (`asks`).
pub fn laws()
    ensures starts { LegalStartsThere }
    ensures idle { IdleWaits }
    ensures controller { LegalHasController }
    ensures makes { LegalMakesScript }
    ensures imitates { LegalImitatesController }
    ensures script { LegalStartsWithScript }
    ensures asks { LegalAsksController }
{}
