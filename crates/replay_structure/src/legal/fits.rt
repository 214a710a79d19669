//! That the normal form of an original is as `replay_structure: placed` asks, so its replay texts are well placed. The module has no functions of its own but the one that
//! carries the laws.

ghost use Rattle.replay_structure.specs.legal.fits.Laws.{IsMet, NormalFits, OriginalReplayIsPlaced};

/// Carries the laws: the normal form of a program that is ready is as `replay_structure: placed` asks (`fits`), and each replay text of an original that is so is well
/// placed (`originals`). A program is as asked (`met`).
pub fn laws()
    ensures fits { NormalFits }
    ensures originals { OriginalReplayIsPlaced }
    ensures met { IsMet }
{}
