//! That the normal form of each legal program meets the rules 13 to 23. The module has no functions of its own but the one that carries the laws.

ghost use Rattle.normal_laws.specs.legality.checks.Laws.{IsMet, NormalMeetsChecks};

/// Carries the law of the rules 13 to 23 for normal forms. They refuse nothing in the normal form of a legal program (`checked`); so it is
/// with two programs (`met`).
pub fn laws()
    ensures checked { NormalMeetsChecks }
    ensures met { IsMet }
{}
