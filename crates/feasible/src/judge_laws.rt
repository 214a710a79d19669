// The laws of judges.

ghost use Rattle.feasible.specs.JudgeLaws.{AwayIsSettled, EachHasVerdict};

/// The laws of judges and verdicts. The function does nothing: whoever needs a law calls it for its clauses.
pub fn laws()
    ensures away { AwayIsSettled }
    ensures verdicts { EachHasVerdict }
{}
