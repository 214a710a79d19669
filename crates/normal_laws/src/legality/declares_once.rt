//! That the normal form of a legal program declares no name twice. The module has no functions of its own but the one that carries the laws.

ghost use Rattle.normal_laws.specs.legality.declares_once.Laws.{IsMet, NormalDeclaresOnce};

/// Carries the law that rule Duplicate refuses nothing in the normal form of a legal program (`once`); so it is with two programs (`met`).
pub fn laws()
    ensures once { NormalDeclaresOnce }
    ensures met { IsMet }
{}
