//! What stays true of the tasks of a program as it runs: which statements they stand in, the values of formals, and that each opened accept body belongs to the call of its caller.
//! The module has no functions of its own but the one that carries the laws.

ghost use Rattle.task_laws.specs.invariants.Example.{IsMet};
ghost use Rattle.task_laws.specs.invariants.Worlds.{KeptFirst, KeptOn};

/// Carries the laws: where each accept statement of a program has the modes and subtypes of its entry's formals, and no formal an empty subtype, the
/// formals of every opened accept body have values in their subtypes, and the caller stands at a call of an entry with such formals; so at the start
/// (`first`), and so it stays with each move (`on`). A program with such an entry is one (`met`).
pub fn laws()
    ensures first { KeptFirst }
    ensures on { KeptOn }
    ensures met { IsMet }
{}
