//! What a task of a program and its image in the program's normal form do between synchronizing statements.
//! The module has no functions of its own but the one that carries the laws; its definitions and lemmas are there for the laws of whole runs.

ghost use Rattle.normal_laws.specs.runs.floors.Instances.{FormsAreAsked};
ghost use Rattle.normal_laws.specs.runs.floors.Laws.{NormalTranslates, NormalSteps, NormalStarts, NormalRaises, NormalOpens, NormalEnds, NormalEnters, NormalPreludes};

/// Carries what holds of tasks of the normal form, where the two tables of types agree on what they have in common. The normal form of a unit is a
/// translation of it (`translates`): images of rows, of handlers and of branches, any number of open accept bodies, and the unit's added variables beside
/// its own. So a task and its image take the same local steps (`steps`), and they
/// start alike (`starts`). Behind synchronizing statements they go on alike: where an exception is raised in both (`raises`), where both open an accept body
/// (`opens`) or end one (`ends`), and where both enter another part of a call or wait (`enters`).
/// What stands in front of a statement is made, or raises what the original's evaluation raises (`preludes`). Each task of each normal form is as
/// these laws ask (`met`).
pub fn laws()
    ensures translates { NormalTranslates }
    ensures steps { NormalSteps }
    ensures starts { NormalStarts }
    ensures raises { NormalRaises }
    ensures opens { NormalOpens }
    ensures ends { NormalEnds }
    ensures enters { NormalEnters }
    ensures preludes { NormalPreludes }
    ensures met { FormsAreAsked }
{}
