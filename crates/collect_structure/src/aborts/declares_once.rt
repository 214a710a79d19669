//! That a collecting text of a program with abort statements declares no name twice. The module has no functions of its own but the one that carries the laws.

ghost use Rattle.collect_structure.specs.aborts.declares_once.Laws.{AbortDeclaresOnce, IsMet, LegalAbortDeclaresOnce, LegalLeavesNames};

/// Carries the laws of what a collecting text of a program with abort statements declares. Rule Duplicate refuses nothing in it, where it refuses nothing
/// in the normal form and the names there leave room (`once`). Those of the normal form of a legal program do (`leaves`), so the rule refuses nothing in
/// the text of a legal program (`legal`); two programs are such ones (`met`).
pub fn laws()
    ensures once { AbortDeclaresOnce }
    ensures leaves { LegalLeavesNames }
    ensures legal { LegalAbortDeclaresOnce }
    ensures met { IsMet }
{}
