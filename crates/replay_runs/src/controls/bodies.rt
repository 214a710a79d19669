//! Each replay text is a program as the law of the controller's body asks. The module has no functions of its own but the one that carries the laws.

ghost use Rattle.replay_runs.specs.controls.bodies.Laws.{IsMet, LegalHasBody, LegalIsWellMade, LegalTasksJoinNobody};

/// Carries what the law of the controller's body (`table_law: runs`) asks of a program, of the replay text of each legal program and of known events,
/// with all inputs. Each accept statement of it conforms to its entry, and no formal of an entry has an empty subtype (`well`). None of its tasks
/// accepts a DED_JOIN (`joins`). So it is a program in which the task DED_CONTROL has the body of its script, and goes past each operation by that
/// alone (`has`). There are such a program, events and numbers (`met`).
pub fn laws()
    ensures well { LegalIsWellMade }
    ensures joins { LegalTasksJoinNobody }
    ensures has { LegalHasBody }
    ensures met { IsMet }
{}
