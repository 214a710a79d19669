//! What the static rules leave at each place of a program that meets them. The module has no functions of its own but the one that
//! carries the laws.

ghost use Rattle.task_laws.specs.legal.sites.Laws.{AllCheckMet, AllMet, NamesAreDeclared};

/// Carries the laws of places: a program that meets the first twelve rules meets them at each of its places (`met`), and one that
/// meets the rules 13 to 23 meets those (`checked`). Each name in an original that meets all of them is a predefined one, an attribute's,
/// or is declared and so not reserved (`names`).
pub fn laws()
    ensures met { AllMet }
    ensures checked { AllCheckMet }
    ensures names { NamesAreDeclared }
{}
