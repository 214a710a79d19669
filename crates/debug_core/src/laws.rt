// What is so of all answers.

ghost use Rattle.debug_core.specs.CollectedHeadline.{CollectedHeadline};
ghost use Rattle.debug_core.specs.Headline.{Headline};
ghost use Rattle.debug_core.specs.OneAnswer.{OneAnswer};

/// Carries the law that no answer is free: two calls of the same words over the same told files and outputs, in which no reading and no
/// write failed, have the same status and leave the same texts, or one of them had no memory.
pub fn one_answer()
    ensures { OneAnswer }
{}

/// Carries the promise in one statement. Where one call judges a sequence of a program and another replays it, and neither is refused, the text
/// that is written shows events of the sequence alone, as some run of the program does, with the outputs of that run. Where the sequence is
/// feasible each run of the text can go on to all of it, and each that ends has the program's outputs for every task that is not aborted. Where it
/// is not, each run can go on to all before the first event that no run reaches, which the judging names, unless it is unsettled.
pub fn headline()
    ensures { Headline }
{}

/// Carries the promise of collecting in one statement. What a call writes that runs the collecting text of a program is the file of a sequence that is
/// feasible in the program with these inputs. Where it has no more events than a file may have, each call that judges it with these inputs tells a
/// verdict that names no infeasible event.
pub fn collected()
    ensures { CollectedHeadline }
{}
