//! The types and the numbers of a collecting text of a program with abort statements, by those of the program. The module has no functions of its own but
//! the one that carries the laws.

ghost use Rattle.collect_structure.specs.aborts.texts.Laws.{AbortAgrees, AbortIsRooted, AbortNumbered};

/// Carries the laws of the types and numbers of a collecting text of a program with abort statements. Its table of types and that of the program keep
/// one sound table (`rooted`), so they agree on the program's own names (`agree`). The numbers of the text are those of the definition (`numbered`).
pub fn laws()
    ensures rooted { AbortIsRooted }
    ensures agree { AbortAgrees }
    ensures numbered { AbortNumbered }
{}
