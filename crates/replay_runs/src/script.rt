//! The project's own script is the one that the law of replaying asks for, spelled in numbers.
//! The module has no functions of its own but the one that carries the law.

ghost use Rattle.replay_runs.specs.script.Laws.{PermitsDiffer, SpellsTheLaw};

/// Carries what the script of a sequence is (`control_script`): the script of the law of replaying over the project's own progress, with each operation
/// spelled in numbers (`spells`), for every sequence and whatever the owners of entries and the number of tasks. And different permits are spelled
/// differently (`apart`), so a task that reads the numbers knows its permit.
pub fn laws()
    ensures spells { SpellsTheLaw }
    ensures apart { PermitsDiffer }
{}
