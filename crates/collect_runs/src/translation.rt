//! The collecting text of a unit as a translation of its normal form. The module has no functions of its own but the one that carries the laws.

ghost use Rattle.collect_runs.specs.translation.Laws.{CollectIsClosed, CollectKeepsVariables, CollectRaises, CollectStarts, CollectSteps, CollectTranslates, MetByEach};

/// Carries what a task of a normal form and its image in a collecting text have in common between synchronizing statements. The text of each
/// unit is a translation of it (`translates`), and no exit from a floor leaves a loop outside of that floor (`closed`). So both take the
/// same local steps (`steps`), and an exception that is raised in both leaves them alike (`raises`). The image has the variables by which it
/// hears the recorder wherever it stands (`variables`). The image of a task that starts comes to where it is alike by local steps that write
/// nothing (`starts`). What is asked of the start is met together (`met`).
pub fn laws()
    ensures translates { CollectTranslates }
    ensures closed { CollectIsClosed }
    ensures steps { CollectSteps }
    ensures raises { CollectRaises }
    ensures variables { CollectKeepsVariables }
    ensures starts { CollectStarts }
    ensures met { MetByEach }
{}
