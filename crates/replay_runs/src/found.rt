//! Look-ups by name among the entries that a replay text adds to the tasks of a program. The module has no functions of its own but the
//! one that carries the laws.

ghost use Rattle.replay_runs.specs.found.Laws.{DoublesAreFound, IsMet, LegalDoublesAreFound, LegalHasNamesApart, LegalMoreAreFound, MoreAreFound};

/// Carries the laws of look-ups by a task and a name in the numbers of a replay text. They find the double of each entry by the double's
/// name (`doubles`), and the two more entries of each task beside main (`more`), where names are apart, as they are in the normal form of
/// each legal program (`apart`). So both are found in the replay text of each legal program (`legal_doubles`, `legal_more`), as in that of
/// one with an array of tasks (`met`).
pub fn laws()
    ensures doubles { DoublesAreFound }
    ensures more { MoreAreFound }
    ensures apart { LegalHasNamesApart }
    ensures legal_doubles { LegalDoublesAreFound }
    ensures legal_more { LegalMoreAreFound }
    ensures met { IsMet }
{}
