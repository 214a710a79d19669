//! That the collecting text of a normal form declares no name twice. The module has no functions of its own but the one that carries the laws.

ghost use Rattle.collect_structure.specs.declares_once.Laws.{CollectDeclaresOnce, IsMet, LegalCollectDeclaresOnce, LegalLeavesNames};

/// Carries the laws of what a collecting text declares. Rule Duplicate refuses nothing in it, where it refuses nothing in the normal form and the
/// names there leave room (`once`). Those of the normal form of a legal program do (`leaves`), so the rule refuses nothing in the collecting text
/// of a legal program (`legal`); two programs are such ones (`met`).
pub fn laws()
    ensures once { CollectDeclaresOnce }
    ensures leaves { LegalLeavesNames }
    ensures legal { LegalCollectDeclaresOnce }
    ensures met { IsMet }
{}
