//! What the accepts and the selective waits of a legal program are like. The module has no functions of its own but the one that carries
//! the laws.

ghost use Rattle.normal_laws.specs.existence.accepting.Laws.{CanAcceptStays, IsMet, LegalBodiesCanAccept, LegalTasksCanAccept};

/// Carries what the accepts of a program are like that is legal in any mode and well placed. Each accept has the formals of its entry, their
/// names, modes and subtypes, and each selective wait has at most 33 alternatives. So it is of each body (`bodies`), of each task as it starts
/// (`starts`), and after each step and each event (`stays`). Where an accept had other formals, or a wait 2^32 alternatives, the machine
/// would answer want of memory. Two programs are such ones (`met`).
pub fn laws()
    ensures bodies { LegalBodiesCanAccept }
    ensures starts { LegalTasksCanAccept }
    ensures stays { CanAcceptStays }
    ensures met { IsMet }
{}
