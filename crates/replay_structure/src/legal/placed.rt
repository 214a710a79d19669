//! That the replay texts of legal programs are well placed. The module has no functions of its own but the one that carries the laws.

ghost use Rattle.replay_structure.specs.legal.placed.Laws.{IsMet, LegalReplayIsPlaced};

/// Carries the laws: the replay text of a legal program is well placed, for each sequence whose numbers a text can hold
/// (`placed`). A program is as asked (`met`).
pub fn laws()
    ensures placed { LegalReplayIsPlaced }
    ensures met { IsMet }
{}
