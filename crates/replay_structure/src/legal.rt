//! That the replay texts of a legal program are legal. The module has no functions of its own but the one that carries the laws.

pub mod fits;
pub mod known;
pub mod names;
pub mod placed;

ghost use Rattle.replay_structure.specs.legal.Laws.{IsMet, LegalIsPrepared, LegalReplayHasNumbers, LegalReplayMeetsChecks, LegalReplayMeetsTypes, ReplayIsAsPromised, ReplayIsLegal};

/// Carries the law that the replay text of a legal program and a sequence is legal. It has the numbers of the definition (`numbered`). It
/// meets the first twelve rules where its places meet all of them but rule Duplicate (`types`), and the rules 13 to 23 where the normal form is
/// as `replay_structure: checked` asks (`checks`); a legal program is prepared for that where its names are kept (`prepared`). So it is legal as a text of
/// any kind then (`legal`), and as it is promised of replay texts where it is well placed too (`promised`); so it is with a program and a whole
/// run of it (`met`).
pub fn laws()
    ensures numbered { LegalReplayHasNumbers }
    ensures types { LegalReplayMeetsTypes }
    ensures checks { LegalReplayMeetsChecks }
    ensures prepared { LegalIsPrepared }
    ensures legal { ReplayIsLegal }
    ensures promised { ReplayIsAsPromised }
    ensures met { IsMet }
{}
