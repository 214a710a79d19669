//! The variables of a task's unit keep their names and subtypes, and what their values may be, whatever is done to the task.

ghost use Rattle.task_laws.specs.statements.variables.Laws.{CountsOne, EveryBodyIsSo, InnerStays, NamesMeanKept, VariablesStart, VariablesStay};

/// Carries what stays true of the variables of a task's unit. A task starts with the objects of its unit (`starts`). Whatever is done to it, they are there with
/// their names and subtypes, and each has its first value or one that lies in its subtype (`stays`), where the loop parameters and formals that come in front of
/// them have certain names. Each of those has one value. That they have such names stays true too (`inner`), and is so of every body where any name is such a
/// one (`any`). A name that is none of these means the variable of the unit (`means`). In a counting loop the latest variable has one value (`counts`): were it
/// otherwise, the machine would answer want of memory.
pub fn laws()
    ensures starts { VariablesStart }
    ensures stays { VariablesStay }
    ensures inner { InnerStays }
    ensures means { NamesMeanKept }
    ensures counts { CountsOne }
    ensures any { EveryBodyIsSo }
{}
