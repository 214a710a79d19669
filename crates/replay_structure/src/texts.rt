//! The types and the numbers of a replay text, by those of the program. The module has no functions of its own but the one that carries the
//! laws.

ghost use Rattle.replay_structure.specs.texts.Laws.{ExtentsAlike, LegalIsAsked, ReplayAgrees, ReplayIsRooted, ReplayNumbered};

/// Carries the laws of the types and numbers of a replay text. Its table of types and that of the program keep one sound table
/// (`rooted`), so they agree on the program's own names (`agree`); ranges of such names have the same values (`extents`). The numbers
/// of the text are those of the definition (`numbered`). Each legal original is as this asks (`met`).
pub fn laws()
    ensures rooted { ReplayIsRooted }
    ensures agree { ReplayAgrees }
    ensures extents { ExtentsAlike }
    ensures numbered { ReplayNumbered }
    ensures met { LegalIsAsked }
{}
