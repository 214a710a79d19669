//! How the statements of a normal form name tasks. The module has no functions of its own but the one that carries the laws.

ghost use Rattle.normal_laws.specs.existence.statements.Laws.{BodiesNameSimply, LegalTasksNameSimply, NamesStaySimple};

/// Carries how the statements of a normal form name tasks. In each body in normal form the callee of a call is a simple name, and an abort
/// statement has at most one name, which is a simple one (`bodies`). So it is of each statement of a task of a legal program's normal form
/// as the task starts (`legal`), and after each step and each event (`stays`).
pub fn laws()
    ensures bodies { BodiesNameSimply }
    ensures legal { LegalTasksNameSimply }
    ensures stays { NamesStaySimple }
{}
