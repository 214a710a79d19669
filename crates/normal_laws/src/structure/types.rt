//! What the types, values and objects of a program's normal form have in common with the program's. The module has no functions of its own
//! but the one that carries the laws.

ghost use Rattle.normal_laws.specs.structure.types.Laws.{AddedNamesAreNew, BodyObjects, FirstDeclsAreFront, IsMet, MainObjects, NormalAgrees, NormalIsRooted, NormalValues, RangeForms, VariableIsObject};

/// Carries the laws of the types of a normal form, whatever types and numbers it is made from. No variable that is added has a name
/// of the program's own (`new`). What the first declarations leave out is a task, an object of a task type or a body (`front`). So
/// the two tables keep one sound table (`rooted`), agree on the program's own names (`agree`), and say the same of values (`values`).
/// The objects of main and of each body start as in the program, with the added variables in front (`main`, `bodies`), and each
/// variable of a scalar type or subtype, or of a static range, has its bounds in the program (`variables`, `ranges`). A program is
/// as these laws ask (`met`).
pub fn laws()
    ensures new { AddedNamesAreNew }
    ensures front { FirstDeclsAreFront }
    ensures rooted { NormalIsRooted }
    ensures agree { NormalAgrees }
    ensures values { NormalValues }
    ensures main { MainObjects }
    ensures bodies { BodyObjects }
    ensures variables { VariableIsObject }
    ensures ranges { RangeForms }
    ensures met { IsMet }
{}
