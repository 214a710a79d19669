//! That the printed replay text of a program and a sequence is read as the same program. The crate has no functions of its own but the one that carries the
//! laws.

ghost use Rattle.text_laws.specs.replay_read_back.Laws.{IsMet, ReplayIsPromised, ReplayIsReadBack};

/// Carries the laws: the replay text of a legal program that was read and of a sequence that was read is legal (`promised`), and as it is printed
/// it is read as a program that is the same (`read_back`). A text and a sequence are as asked (`met`).
pub fn laws()
    ensures promised { ReplayIsPromised }
    ensures read_back { ReplayIsReadBack }
    ensures met { IsMet }
{}
