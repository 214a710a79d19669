//! What the values and the objects of a rewritten program have in common with those of the original, by their tables of types. The module
//! has no functions of its own but the one that carries the laws.

ghost use Rattle.task_laws.specs.legal.rewritten_values.Laws.{EvaluatedAlike, FormsAlike, IsMet, LiteralsAreNamed, MarkedForm, ObjectsAlike, ObjectsStay, TablesAgreeOnValues};

/// Carries the laws of values and objects of rewritten programs. Two tables that agree on old names say the same of values
/// (`values`), where each literal has a name of the first program, as in each that was read (`literals`). By both tables an expression
/// with old names is evaluated alike (`evaluated`), an object is the same (`forms`), and the objects of a unit are the same at the
/// start (`objects`). Tasks that are left out are no objects (`stay`). An object of a scalar mark has the mark's bounds (`marked`).
/// The table of each program that meets the rules on types and that of its first declarations agree so (`met`).
pub fn laws()
    ensures values { TablesAgreeOnValues }
    ensures literals { LiteralsAreNamed }
    ensures evaluated { EvaluatedAlike }
    ensures forms { FormsAlike }
    ensures objects { ObjectsAlike }
    ensures stay { ObjectsStay }
    ensures marked { MarkedForm }
    ensures met { IsMet }
{}
