//! The tasks, entries and bodies of a program's normal form, by those of the program. The module has no functions of its own but the one
//! that carries the laws.

ghost use Rattle.normal_laws.specs.structure.units.Laws.{EntriesKeepFormals, IsMet, NamesTellUnits, TasksKeepNumbers, UnitsAreDeclared, UnitsAreRewritten};

/// Carries the laws of the tasks of a normal form, where each task beside main runs the body of one declared task or task type, and tasks
/// that get one name run one body. Each task keeps its number (`tasks`), its entries have the formals that they have in the program
/// (`formals`), and it runs the rewriting of the body that it runs in the program (`units`). The bodies of a program that meets the static
/// rules are so declared (`declared`), and tasks of one name in it run one body (`named`). So it is in a program with
/// three tasks (`met`).
pub fn laws()
    ensures declared { UnitsAreDeclared }
    ensures named { NamesTellUnits }
    ensures tasks { TasksKeepNumbers }
    ensures formals { EntriesKeepFormals }
    ensures units { UnitsAreRewritten }
    ensures met { IsMet }
{}
