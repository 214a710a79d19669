//! What holds of each statement of a task, by the loops around it, stays so, if an abort statement keeps it without its first name. The
//! crate has no functions of its own but the one that carries the laws.

pub mod variables;

ghost use Rattle.task_laws.specs.statements.Blocks.{TasksLeaveBlocks, TasksStartOutside};
ghost use Rattle.task_laws.specs.statements.Laws.{ExitsAreInLoops, ExitsStart, ExitsStay, LegalExitsLeave};

/// Carries that exits leave loops. In a program that meets the static rules each exit leaves a loop around it in the same unit or accept
/// body (`legal`). So each task starts (`starts`), and whatever is done to it leaves it so (`stays`). Hence it stands at no exit but such
/// as leaves a loop (`in_loops`). No task starts at the end of a block (`outside`), and whatever is done to it does not leave it there
/// (`blocks`).
pub fn laws()
    ensures legal { LegalExitsLeave }
    ensures starts { ExitsStart }
    ensures stays { ExitsStay }
    ensures in_loops { ExitsAreInLoops }
    ensures outside { TasksStartOutside }
    ensures blocks { TasksLeaveBlocks }
{}
