//! One task of the interpreted language, for the whole language at once, as definitions in `specs/` (chapters 3 to 6, 9, 11
//! and 14 of ANSI/MIL-STD-1815A): what each statement does, what a task offers to others, and what others do to it.
//! The crate has no code but the type of a formal parameter: its definitions are what the tasks and the machine above are
//! proved against.
#![tactic(auto)]

mod parameters;
pub mod picked_runs;

ghost use Rattle.task_model.specs.Laws.{TasksAreLawful, OpeningsOpen, RunsAgree, KilledIsAborted, RestsMeet, FeasibleByConditions, FeasibleIsAdmitted, FeasibleExactly, RestExactly};

pub use parameters::FormalParameter;

/// Carries the laws of these tasks and of all runs of each program, for every tree, table of types and numbers. The function
/// does nothing: whoever needs a law calls it for its clauses.
pub fn laws()
    ensures lawful { TasksAreLawful }
    ensures openings { OpeningsOpen }
    ensures determinacy { RunsAgree }
    ensures killed { KilledIsAborted }
    ensures first_law { RestsMeet }
    ensures second_law { FeasibleByConditions }
    ensures admitted { FeasibleIsAdmitted }
    ensures feasible { FeasibleExactly }
    ensures rest { RestExactly }
{}
