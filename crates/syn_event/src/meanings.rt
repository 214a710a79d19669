// What names mean to the rules on places.

use ada_tree::NameId;

/// What a name means to the rules on accepts, calls, abort statements and shared variables: the main procedure, a task type, a
/// task, an object of a task type or an array of tasks (with the task or type whose body it runs), a variable or an array
/// constant of main, or an object of a task body, a formal or a loop parameter. Other names mean nothing to them.
#[derive(Clone, Copy, Debug, PartialEq, Eq)]
pub enum Meant {
    MainProcedure,
    TaskType,
    TaskOf { unit: NameId },
    Shared,
    Inner,
}
