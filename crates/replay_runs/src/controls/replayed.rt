//! That a text replays a sequence of events of a program, as it is told of the two programs alone.

ghost use Rattle.replay_runs.specs.controls.replayed.Laws.{InputsBelowCount, LegalFormsCarryOver, LegalTextsReplay, ReplaysCarryOver, TextIsMet};

/// Carries what replays are told of. Where a text replays a sequence of one program, and another program shows the same as that one, it
/// replays the sequence of the other (`carried`). Of the inputs of a program those of its tasks alone count (`inputs`).
/// So what replays a sequence of the normal form of a legal program replays it of the program, with all inputs (`forms`).
/// The replay text of each legal program and of events that a file of it can hold replays them (`texts`), as that of a program with a task
/// and a call does (`met`).
pub fn laws()
    ensures carried { ReplaysCarryOver }
    ensures inputs { InputsBelowCount }
    ensures forms { LegalFormsCarryOver }
    ensures texts { LegalTextsReplay }
    ensures met { TextIsMet }
{}
