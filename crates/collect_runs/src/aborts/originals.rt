//! That the collecting text with abort statements of a legal program collects the program. The module has no functions of its own but the one that carries the laws.

ghost use Rattle.collect_runs.specs.aborts.originals.Laws.{IsMet, LegalTextsCollectPrograms};

/// Carries that the collecting text of a legal program collects the program, whether abort statements stand in it or not (`texts`): whatever the inputs
/// and the schedule, what it records are events of a run of the program with the same outputs, and each list of events that is feasible in the program is
/// recorded in some run. So does the text of a program in which a task aborts itself (`met`).
pub fn laws()
    ensures texts { LegalTextsCollectPrograms }
    ensures met { IsMet }
{}
