//! The numbers of a legal program's normal form. The module has no functions of its own but the one that carries the laws.

ghost use Rattle.normal_laws.specs.legality.numbers.Laws.{IsMet, LegalHasNumbers, NoneLegalIsDed};

/// Carries the laws of the numbers of a legal program's normal form. No array of tasks is named DED (`none`), so the numbers that the normal
/// form has, as any program, are those of its definition (`numbered`); so it is with two programs (`met`).
pub fn laws()
    ensures none { NoneLegalIsDed }
    ensures numbered { LegalHasNumbers }
    ensures met { IsMet }
{}
