//! The numbers of a program's normal form, by those of the program. The module has no functions of its own but the one that carries the law.

ghost use Rattle.normal_laws.specs.structure.numbers.Laws.{IsMet, NormalHasNumbers};

/// Carries the law of the numbers of a normal form: they are those of its definition (`numbered`).
/// A program with an array of tasks is as it asks (`met`).
pub fn laws()
    ensures numbered { NormalHasNumbers }
    ensures met { IsMet }
{}
