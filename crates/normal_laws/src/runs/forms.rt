//! The law of normal forms for a program and the normal form that is made from it.
//! The module has no functions of its own but the one that carries the law.

ghost use Rattle.normal_laws.specs.runs.forms.Laws.{MadeIsCalm, MadeIsNormal, ProgramsShowSame, IsMet};

/// Carries the law for each program of which is known what `IsNormalisable` of `specs/Normalisable` asks: what is made from it is a normal form of it
/// (`made`), so the two show the same events and outputs, whatever the inputs and the schedule, in both directions, quiet ends too (`same`), and no free
/// task of the normal form ever stands where the evaluation of a synchronizing statement raises (`calm`). Two examples meet what is asked, one of them
/// with an array of tasks (`met`).
pub fn laws()
    ensures made { MadeIsNormal }
    ensures same { ProgramsShowSame }
    ensures calm { MadeIsCalm }
    ensures met { IsMet }
{}
