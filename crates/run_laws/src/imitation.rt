//! The law of imitation, over abstract tasks: what each task of one program owes to that of another, and that the two programs then show the same events and outputs.
//! The module has no functions of its own but the one that carries the law.

ghost use Rattle.run_laws.specs.imitation.Told.{LawOfFineTasks, LawOfImitation, MetByAll};

/// Carries the law of imitation, for original tasks with states of the type `L`, imitating ones with states of the type `K`, and witnesses of the
/// types `V` (of what is known of a world) and `W` (of meeting states). Where each task does what the original's does (`Imitates` in
/// `specs/Imitations`), up to finitely many local steps that write nothing, the two programs show the same (`same`): whatever the schedule, each run
/// of the one has the events of some run of the other, with the same output of each task, in both directions; and where the run ends quiet, so that no
/// live task has a local step, the other can too. What is so of each free task where it meets one of the original, and before each local step to there,
/// is so of each free task in all worlds and after all runs of the imitation (`fine`). The premises are met by every program, which imitates itself (`met`).
pub fn laws<L, K, V, W>()
    ensures same { LawOfImitation L K V W }
    ensures fine { LawOfFineTasks L K V W }
    ensures met { MetByAll L V }
{}
