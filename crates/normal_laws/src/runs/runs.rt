//! The law of normal forms, of whole runs.
//! The module has no functions of its own but the one that carries the law.

ghost use Rattle.normal_laws.specs.runs.runs.Example.{IsMet};
ghost use Rattle.normal_laws.specs.runs.runs.Laws.{NormalFormsAreCalm, NormalFormsShowSame};

/// Carries the law of normal forms: where a program is made from another as its normal form (`IsNormalForm` in `specs/Premises`), the two show the same
/// (`same`). Whatever the inputs and the schedule, each run of the one has the events of some run of the other, with the same output of each task, in both
/// directions; and where the run ends quiet, so that no live task has a local step, the other can too. Whatever the normal form does from its start, no
/// free task of it stands where the evaluation of a call, an accept, a wait or an abort raises (`calm`): what could raise there goes to variables
/// before, and a wait whose alternatives may all be closed stands behind its test. What is asked is met by a program with a family's entry, an `in out`
/// formal and a selective wait with a guard, and its normal form (`met`).
pub fn laws()
    ensures same { NormalFormsShowSame }
    ensures calm { NormalFormsAreCalm }
    ensures met { IsMet }
{}
