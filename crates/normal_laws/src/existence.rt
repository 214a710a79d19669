//! That every legal program has a normal form that shows the same. The module has no functions but those that carry the laws.
pub mod accepting;
pub mod clear_scopes;
pub mod room;
pub mod statements;
pub mod units;
pub mod variable_types;

ghost use Rattle.normal_laws.specs.existence.Laws.{LegalIsCalm, LegalIsNormalisable, LegalIsNormal, LegalShowsSame, IsMet};

/// Carries the laws of each legal program that is well placed, whose names begin with the predefined ones, and whose enumerations are small and bodies
/// light: it is as the law of normal forms asks (`normal_laws: existence`), so what is made from it is a normal form of it (`normal`), and the two show the same
/// events and outputs, whatever the inputs and the schedule (`same`). Whatever the normal form does from its start, no free task of it stands where the
/// evaluation of a call, an accept, a wait or an abort raises (`calm`). Two programs with an array of tasks are such ones, one of them over an
/// enumeration (`met`).
pub fn laws()
    ensures normalisable { LegalIsNormalisable }
    ensures normal { LegalIsNormal }
    ensures same { LegalShowsSame }
    ensures calm { LegalIsCalm }
    ensures met { IsMet }
{}
