//! How the statements of a normal form are formed: what they name is found.

ghost use Rattle.replay_runs.specs.controls.formed.Laws.{FormedStays, LegalBodiesAreFormed, LegalStaticIndicesStay, LegalTasksAreFormed};
ghost use Rattle.replay_runs.specs.controls.formed.NormalForm.{IsMet, LegalNormalForms};

/// Carries how the statements of the normal form of a legal program are formed. The callee of a call, of any form, and the name in an abort
/// statement are simple names by which tasks are found, and the entry of a call is found in that task. The entry of an accept is the task's
/// own. Main has neither accept nor selective wait. Actuals and guards are variables that the normal form adds. The index of an entry is a variable that the normal form adds, or static and in the
/// family's range. A selective wait has an accept alternative, and an abort statement one name. The numbers of tasks, entries and delays are
/// numbers of INTEGER. So it is of each body (`bodies`), of each task as it starts (`starts`), and after each step and each event (`stays`).
/// A static index is worth the same wherever the task and its image in the replay text stand (`indices`).
/// The declarations of the normal form stand in order, without task types (`normal`). So it is with two programs (`met`).
pub fn laws()
    ensures bodies { LegalBodiesAreFormed }
    ensures starts { LegalTasksAreFormed }
    ensures stays { FormedStays }
    ensures indices { LegalStaticIndicesStay }
    ensures normal { LegalNormalForms }
    ensures met { IsMet }
{}
