//! That the normal form of a legal program is as its replay text asks. The module has no functions of its own but the one that carries the
//! laws.

ghost use Rattle.replay_structure.specs.checkable.Laws.{IsMet, NormalIsCheckable, ReplayTextMeets};

/// Carries the laws: the normal form of a program that is prepared is as its replay text asks, with the script of a sequence (`checkable`),
/// so the replay text meets the rules 13 to 23 where the normal form does (`meets`). A program is prepared (`met`).
pub fn laws()
    ensures checkable { NormalIsCheckable }
    ensures meets { ReplayTextMeets }
    ensures met { IsMet }
{}
