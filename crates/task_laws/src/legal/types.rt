//! What the static rules leave of the types of a program that meets them: expressions have kinds, ranges and constants are static, and marks are
//! those of the program's table. The module has no functions of its own but the one that carries the law.

ghost use Rattle.task_laws.specs.legal.types.Laws.{IsMet, TasksHaveTypes};

/// Carries the law of the types of tasks: in a program that meets the rules on types, is well placed and has small enumerations, each task that
/// is declared has a name of its own, ranges of families and of arrays of tasks are static and come to what the numbers read, and
/// formals have scalar marks of the program's table (`tasks`). A program with an array of tasks is one of these (`met`).
pub fn laws()
    ensures tasks { TasksHaveTypes }
    ensures met { IsMet }
{}
