//! The law of collecting for programs with abort statements, over abstract tasks: what one task of a collecting program owes, and what all runs of such a
//! program then show. The module has no functions of its own but the one that carries the law.

ghost use Rattle.run_laws.specs.aborts.Example.{TrioIsCollected};
ghost use Rattle.run_laws.specs.aborts.Told.{LawOfCollecting, LawOfRefusals, MetByAll};

/// Carries the law of collecting, for original tasks with states of the type `L`, which may abort tasks, collecting ones with states of the type `K`, and
/// witnesses of the types `V` (of what is known of a world) and `W` (of meeting states). A collecting program has, beside the original's tasks, a recorder
/// that they tell what they are about to do or have done, and that makes the aborts. Where its tasks do what those of the copy do (`Imitates` in
/// `specs/Rewritings`), it collects (`collects`): whatever the schedule, what the recorder has written is the text of the events of some run of the original
/// with the same output of each task, killed or not, and part of a line; where the run has ended, of one that ends, and where no action applies any more, of
/// a quiet one, and each such run has these outputs of the tasks that are not killed; and each feasible list of events is written in some run, which ends
/// exactly where the list ends. The caller of a refused rendezvous is completed or abnormal as that ends (`refused`), so that no task is asked to stay at its
/// call behind one. The premises are met by the copy of every program (`met`), and a program of three tasks, one of which is aborted behind a
/// rendezvous whose end nobody has told, is collected by computation (`example`).
pub fn laws<L, K, V, W>()
    ensures collects { LawOfCollecting L K V W }
    ensures refused { LawOfRefusals L V }
    ensures met { MetByAll L V }
    ensures example { TrioIsCollected }
{}
