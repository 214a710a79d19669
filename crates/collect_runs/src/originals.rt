//! That a text collects what a program does, as it is told of the two programs alone. The module has no functions of its own but the one that carries the laws.

ghost use Rattle.collect_runs.specs.originals.Laws.{CollectsCarryOver, IsMet, LegalFormsCarryOver, LegalTextsCollectPrograms};

/// Carries what collecting is told of. Where a text collects one program, and another program of as many tasks shows the same as that one, it collects
/// the other (`carried`). So what collects the normal form of a legal program collects the program, with all inputs (`forms`). The collecting text of a
/// legal program without an abort statement collects the program (`texts`): whatever the inputs and the schedule, what it records are events of a run of
/// the program with the same outputs, and each list of events that is feasible in the program is recorded in some run. So do the texts of a program with
/// a task and a call, and of one with a family of entries (`met`).
pub fn laws()
    ensures carried { CollectsCarryOver }
    ensures forms { LegalFormsCarryOver }
    ensures texts { LegalTextsCollectPrograms }
    ensures met { IsMet }
{}
