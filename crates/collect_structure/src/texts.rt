//! The types and the numbers of a collecting text, by those of the program. The module has no functions of its own but the one that carries the laws.

ghost use Rattle.collect_structure.specs.texts.Laws.{CollectAgrees, CollectIsRooted, CollectNumbered};

/// Carries the laws of the types and numbers of a collecting text. Its table of types and that of the program keep one sound table (`rooted`), so they
/// agree on the program's own names (`agree`). The numbers of the text are those of the definition (`numbered`).
pub fn laws()
    ensures rooted { CollectIsRooted }
    ensures agree { CollectAgrees }
    ensures numbered { CollectNumbered }
{}
