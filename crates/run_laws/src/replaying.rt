//! The law of replaying, over abstract tasks: what one task of a rewritten program owes, and what all runs of such a program then show.
//! The module has no functions of its own but the one that carries the law.

ghost use Rattle.run_laws.specs.replaying.Told.{LawOfReplaying, MetByAll};

/// Carries the law of replaying, for original tasks with states of the type `L`, rewritten ones with states of the type `K`, a progress of the
/// type `G` and witnesses of the type `W`. A rewritten program has, beside the original's tasks, a controller with the script of a sequence and an idle
/// task. Where its tasks do what they are to do (`Imitates` in `specs/Rewritings`), it is controlled (`controlled`): whatever the schedule, the events
/// that stand for something are a prefix of the sequence, and some run of the original has exactly these, with the same output of each task; from each
/// reached state the run can go on with exactly the next events, as far as they are feasible; and where no action applies any more the run has shown the
/// longest part of the sequence that is feasible, and each task that is not killed has the original's output. The premises are met together by every
/// program with every sequence, with the plain progress of `specs/Plainly` and the copy of the program that `specs/Copies` defines (`met`).
pub fn laws<L, G, K, W>()
    ensures controlled { LawOfReplaying L G K W }
    ensures met { MetByAll L }
{}
