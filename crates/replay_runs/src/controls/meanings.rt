//! What the tasks of a replay text are to be beside those of the normal form: in pairs, with a permit, and as they say that they are done.

ghost use Rattle.replay_runs.specs.controls.meanings.Laws.{LegalAbortsHold, LegalAcceptsHold, LegalCallsHold, LegalEndsHold, LegalPairsStep, LegalPermitsHold, LegalWaitsHold, PairsCome, TasksStayOfForm};
ghost use Rattle.replay_runs.specs.controls.meanings.Settings.{FormsKeepReading, IsMet, LegalFormLaws, LegalFormsAreKnown, LegalImitates};

/// Carries what is so of a pair of a task of the normal form and its image. By local steps that write nothing the image comes to where it
/// asks, or has the task's local step (`comes`). Where the task has a local step at a statement that does not synchronize, or at a loop's
/// turn, the image has one too, and behind it they are a pair again (`steps`). What holds of the task alone holds after each step and after
/// each event (`stays`). Before an abort statement with one name the image does with each permit what it is to do (`aborts`), and
/// so it does before a call of any form (`calls`), before an accept statement (`accepts`), before a selective wait (`waits`), and at the
/// end of its unit and of accept bodies (`ends`). So it does with each permit wherever the task has no local step (`permits`).
/// So the tasks of the text imitate the copies that the law of replaying has of the tasks of the normal form, where what the law asks of
/// the normal form is known (`imitates`). Whatever the normal form does, each of its tasks reads it still (`reads`). All that the law asks
/// of it is known of the normal form of a legal program, with whatever numbers for what no text has, where no two of them are one
/// (`formed`), and there are such numbers (`known`). Of one program it is shown that it is such a one (`met`).
pub fn laws()
    ensures comes { PairsCome }
    ensures steps { LegalPairsStep }
    ensures stays { TasksStayOfForm }
    ensures aborts { LegalAbortsHold }
    ensures calls { LegalCallsHold }
    ensures accepts { LegalAcceptsHold }
    ensures waits { LegalWaitsHold }
    ensures ends { LegalEndsHold }
    ensures permits { LegalPermitsHold }
    ensures imitates { LegalImitates }
    ensures reads { FormsKeepReading }
    ensures formed { LegalFormLaws }
    ensures known { LegalFormsAreKnown }
    ensures met { IsMet }
{}
