//! How many tasks and entries a program has, and how many actions apply in it. The module has no functions of its own but the one that carries the laws.

ghost use Rattle.task_laws.specs.actions.Laws.{FewActions, FewEntries, FewTasks};

/// Carries that what is counted in a legal program has 32 bits, in whatever mode it is checked: its tasks (`tasks`), its entries (`entries`), and
/// behind each of its runs, whatever the inputs, the actions that apply (`actions`). Were it otherwise, links and machines would answer want of memory.
pub fn laws()
    ensures tasks { FewTasks }
    ensures entries { FewEntries }
    ensures actions { FewActions }
{}
