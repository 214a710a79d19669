//! That the scopes of a legal program are clear, and that a legal original is as the fields on types of its normal form want it.

ghost use Rattle.normal_laws.specs.existence.Laws.{IsMet};
ghost use Rattle.normal_laws.specs.existence.clear_scopes.Laws.{CalleesAreTold, OriginalIsReady};

/// Carries the laws of scopes: at no place of a program that meets the rules on types is the name of a callee one whose declaration is
/// refused (`told`); so the names in a legal original are its own, and it is as the fields on types want it (`ready`).
/// Two programs are such originals (`met`).
pub fn laws()
    ensures told { CalleesAreTold }
    ensures ready { OriginalIsReady }
    ensures met { IsMet }
{}
