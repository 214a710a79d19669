//! Which body each task of a replay text runs. The module has no functions of its own but the one that carries the laws.

ghost use Rattle.replay_structure.specs.bodies.Laws.{AddedTasksRun, IsMet, ProgramsRun, TasksKeepNumbers, UnitsAreReplayed};

/// Carries the laws of the tasks of a replay text. Those of the normal form keep their numbers, and the controller and the idle task
/// stand behind them (`tasks`). Each runs the rewriting of the body that it runs in the normal form (`units`), and the two added
/// ones run theirs (`added`); all this is so of a program of own names (`programs`), as one with an array of tasks is
/// (`met`).
pub fn laws()
    ensures tasks { TasksKeepNumbers }
    ensures units { UnitsAreReplayed }
    ensures added { AddedTasksRun }
    ensures programs { ProgramsRun }
    ensures met { IsMet }
{}
