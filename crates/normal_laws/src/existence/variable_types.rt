//! That the variables that the normal form of a legal program adds have the subtypes of what goes to them.

ghost use Rattle.normal_laws.specs.existence.variable_types.Laws.{FamiliesAgree, IntegersAgree, IsMet, LegalIsReady, MarksAgree, TruthsAgree, VariablesAreScalar};

/// Carries the laws of the subtypes of added variables. A legal program that is well placed is ready (`legal`). Of such a program a variable of a
/// formal's mark has the formal's subtype (`marks`), that of a family's index the family's range (`families`), and each variable is
/// scalar (`scalar`). In every program BOOLEAN and INTEGER have all their values (`truths`, `integers`). Two
/// programs are ready (`met`).
pub fn laws()
    ensures legal { LegalIsReady }
    ensures marks { MarksAgree }
    ensures families { FamiliesAgree }
    ensures truths { TruthsAgree }
    ensures integers { IntegersAgree }
    ensures scalar { VariablesAreScalar }
    ensures met { IsMet }
{}
