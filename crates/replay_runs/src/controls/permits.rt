//! What the tests of a permit evaluate to, and which branch is taken then.

ghost use Rattle.replay_runs.specs.controls.permits.Laws.{BothEvaluate, PermitsDecide, TestsOfPermits};

/// Carries what the tests of a replay text evaluate to. Where the variables of a task's permit hold a kind, an argument and an index, the
/// test of these evaluates to whether they are the same, whatever the table of types (`tests`). Two tests joined by `and` evaluate to TRUE
/// exactly where both do (`both`). A task asks before an if statement, and three numbers come back to it. Then it comes, by local steps
/// that write nothing, to the branch that is taken with them (`decide`).
pub fn laws()
    ensures tests { TestsOfPermits }
    ensures both { BothEvaluate }
    ensures decide { PermitsDecide }
{}
