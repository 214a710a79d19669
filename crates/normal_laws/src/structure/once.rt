//! Rule Duplicate and the normal form of a program. The module has no functions of its own but the one that carries the laws.

ghost use Rattle.normal_laws.specs.structure.once.Laws.{FirstIsFit, InnerIsFit, IsMet, NormalDeclares, NormalNamesSame, OnceIsFit, ProgramIsFit, TaskNamesAreFixed};

/// Carries the laws of what a program and its normal form declare and name. Rule Duplicate refuses nothing just where that is fit (`once`), as it
/// is in a program that meets the rules on types (`program`); there what stands in tasks and bodies is fit beside the fixed names (`inner`),
/// and the names of single tasks and of task objects are such (`fixed`). The statements of the normal form declare and name what those of the
/// program do (`names`), its first declarations name what is fit (`first`), and what all its declarations name is told (`declares`).
/// A program with tasks meets the rules on types (`met`).
pub fn laws()
    ensures once { OnceIsFit }
    ensures program { ProgramIsFit }
    ensures inner { InnerIsFit }
    ensures fixed { TaskNamesAreFixed }
    ensures names { NormalNamesSame }
    ensures first { FirstIsFit }
    ensures declares { NormalDeclares }
    ensures met { IsMet }
{}
