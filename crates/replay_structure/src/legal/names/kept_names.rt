//! That names are kept in the replay texts of a legal program, and that a text can hold its events.

ghost use Rattle.replay_structure.specs.legal.names.kept_names.Laws.{IsMet, KnownAreHeld, KnownReplayIsAsPromised, LegalIsKept};

/// Carries the laws of a legal program and of events whose numbers it has. The names in the declarations of its normal form are kept in the replay text,
/// and the events end tasks beside main alone (`kept`); a text can hold the numbers of the events (`held`). So the replay text is as it is promised of
/// replay texts where its places meet the first twelve rules but for rule Duplicate (`promised`). So it is with a program and a whole run of it (`met`).
pub fn laws()
    ensures kept { LegalIsKept }
    ensures held { KnownAreHeld }
    ensures promised { KnownReplayIsAsPromised }
    ensures met { IsMet }
{}
