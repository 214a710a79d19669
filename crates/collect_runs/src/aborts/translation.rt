//! The collecting text of a unit of a program with abort statements as a translation of its normal form.

ghost use Rattle.collect_runs.specs.aborts.translation.Laws.{AbortIsClosed, AbortKeepsVariables, AbortRaises, AbortStarts, AbortSteps, AbortTranslates};

/// Carries what a task of a normal form and its image in a collecting text with abort statements have in common between synchronizing statements.
/// The text of each unit is a translation of it, whatever accept bodies are open (`translates`), and no exit from a floor leaves a loop outside of
/// that floor (`closed`). So both take the same local steps (`steps`), and an exception that is raised in both leaves them alike (`raises`).
/// The image has the variables by which it hears the recorder wherever it stands (`variables`).
/// The image of a task that starts comes to where it is alike by local steps that write nothing (`starts`).
pub fn laws()
    ensures translates { AbortTranslates }
    ensures closed { AbortIsClosed }
    ensures steps { AbortSteps }
    ensures raises { AbortRaises }
    ensures variables { AbortKeepsVariables }
    ensures starts { AbortStarts }
{}
