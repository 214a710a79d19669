// The laws of a program's runs.

ghost use Rattle.task_machine.specs.TaskLaws.{ViewsAgree, FeasibleByTable, VerdictsAgree, VerdictsExist};

/// The laws of a program's runs in the words of views and verdicts, for every tree, table of types, list of inputs and numbers. The function does
/// nothing: whoever needs a law calls it for its clauses. Those in the words of runs are clauses of `task_model::laws`.
pub fn laws()
    ensures views { ViewsAgree }
    ensures second_law { FeasibleByTable }
    ensures one_verdict { VerdictsAgree }
    ensures some_verdict { VerdictsExist }
{}
