//! That a text can hold the events that a file can hold. The module has no functions of its own but the one that carries the laws.

ghost use Rattle.replay_structure.specs.legal.known.Laws.{IsMet, KnownHaveLiterals, KnownReplayIsPlaced};

/// Carries the laws: the numbers of a sequence that a file can hold have literals (`literals`), so the replay text of a legal program and of such a
/// sequence is well placed (`placed`). A program and a whole run of it are as asked (`met`).
pub fn laws()
    ensures literals { KnownHaveLiterals }
    ensures placed { KnownReplayIsPlaced }
    ensures met { IsMet }
{}
