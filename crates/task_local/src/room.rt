//! That room for the choices of a wait, taken once as a task starts, is enough: no statement at which the task ever stands has a wider wait than
//! the widest in its unit's body (sections 9.5 and 9.7.1 of ANSI/MIL-STD-1815A).
//! The crate has no functions of its own but the one that carries the laws; its definitions and lemmas are there for the tasks as code.

ghost use Rattle.task_local.specs.room.Laws.{StandsWithin, StartsWithin, GrowsWithin, HangsOnFrames, IsKept, StaysWithin, NeverWider};

/// Carries the laws of the room that a task needs, counted in choices. Room that is enough for a task is enough for the statement at which it stands
/// (`stands`), stays enough whatever the task does and whatever is done to it (`kept`), hangs on its frames alone (`frames`), and more is enough too
/// (`grows`). The widest wait of its unit's body is enough as it starts (`starts`), and so after all moves of every program (`stays`): no statement at
/// which a task ever stands has a wider wait (`never_wider`).
pub fn laws()
    ensures stands { StandsWithin }
    ensures kept { IsKept }
    ensures starts { StartsWithin }
    ensures grows { GrowsWithin }
    ensures frames { HangsOnFrames }
    ensures stays { StaysWithin }
    ensures never_wider { NeverWider }
{}
