//! That a replay text is well placed. The module has no functions of its own but the one that carries the laws.

ghost use Rattle.replay_structure.specs.placed.Laws.{IsMet, ReplayIsPlaced, ScriptIsPlaced};

/// Carries the laws of places: the replay text of a normal form is well placed where this is as asked, for operations that have literals (`placed`), and so is
/// that of a program and a sequence whose numbers a text can hold (`scripts`). A normal form is as asked (`met`).
pub fn laws()
    ensures placed { ReplayIsPlaced }
    ensures scripts { ScriptIsPlaced }
    ensures met { IsMet }
{}
