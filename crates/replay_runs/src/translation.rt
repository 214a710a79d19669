//! The replay text of a unit as a translation of its normal form. The module has no functions of its own but the one that carries the laws.

ghost use Rattle.replay_runs.specs.translation.Laws.{MetByEach, ReplayIsClosed, ReplayKeepsPermit, ReplayRaises, ReplayStarts, ReplaySteps, ReplayTranslates};

/// Carries what a task of a normal form and its image in a replay text have in common between synchronizing statements. The text of each
/// unit is a translation of it (`translates`), and no exit from a floor leaves a loop outside of that floor (`closed`). So both take the
/// same local steps (`steps`), and an exception that is raised in both leaves them alike (`raises`). The image has the variables of its
/// permit wherever it stands (`permit`). The image of a task that starts comes to where it is alike by local steps that write nothing
/// (`starts`). What is asked of the start is met together (`met`).
pub fn laws()
    ensures translates { ReplayTranslates }
    ensures closed { ReplayIsClosed }
    ensures steps { ReplaySteps }
    ensures raises { ReplayRaises }
    ensures permit { ReplayKeepsPermit }
    ensures starts { ReplayStarts }
    ensures met { MetByEach }
{}
