// Which tasks run which bodies.

ghost use Rattle.std.specs.Prelude.{◌≡◌, ◌==◌, ◌++◌, ℕ, nat_eq, None, Some, IfOk, OnOk, drop, if◌then◌else◌, map, position};
ghost use Rattle.std.specs.HashMap.{get};
ghost use Rattle.std.specs.List.{filter};
ghost use Rattle.ada_static_rules.specs.StaticValue.{first_of_two};
ghost use Rattle.task_model.specs.Setting.{Setting};
ghost use Rattle.normal_model.specs.Names.{task_name};
ghost use Rattle.normal_model.specs.NormalTree.{first_running, running};
ghost use Rattle.normal_lookups.specs.names.SoFar.{AreNamesOf};
ghost use Rattle.normal_form.specs.unit_declarations.Groups.{group_at};
ghost use Rattle.normal_form.specs.unit_declarations.Runners.{AreRunning};

use crate::unit_declarations::groups::{beside, group, keep, number_of};
use ada_tree::{Memory, NameId};
use normal_lookups::Lookups;
use normal_lookups::names::NormalNames;
use std::alloc::Global;
use std::collections::HashMap;
use syn_event::TaskInfo;

/// The tasks that run the body of each name: those beside main, ascending, by their names in the normal form, and the number of the first of all.
#[derive(Drop)]
pub struct Running {
    pub names: HashMap<u32, Vec<NameId>>,
    pub firsts: HashMap<u32, u32>,
}

// Keeps a number for a name, unless one is kept for it.
#[tactic(auto, using(task_links::proofs::KeepingLemmas::keeping))]
fn keep_first(firsts: &mut HashMap<u32, u32>, key: u32, number: u32) -> Result<(), Memory>
    ensures { OnOk result ((q : ℕ) → get nat_eq firsts.new q ≡ first_of_two (get nat_eq firsts.old q) (if key == q then Some number else None)) }
{
    if firsts.contains_key(&key) {
        return Ok(());
    }
    match firsts.insert(key, number) {
        Ok(_) => Ok(()),
        Err(_) => Err(Memory),
    }
}

// The numbers of the first tasks that run the bodies of all names.
#[tactic(auto, using(task_links::proofs::KeepingLemmas::keeping))]
fn keep_firsts(firsts: &mut HashMap<u32, u32>, tasks: &[TaskInfo]) -> Result<(), Memory>
    ensures { OnOk result ((q : ℕ) → get nat_eq firsts.new q ≡ first_of_two (get nat_eq firsts.old q) (position (λ info. info.unit.0 == q) tasks.now)) }
{
    for (place, info) in tasks.iter().enumerate() {
        keep_first(firsts, info.unit.0, number_of(place)?)?;
    }
    Ok(())
}

// The names of the tasks beside main, for the names of the bodies that they run.
fn keep_names(
    groups: &mut HashMap<u32, Vec<NameId>>,
    alloc: Global,
    lookups: &Lookups,
    names: &NormalNames,
    tasks: &[TaskInfo],
) -> Result<(), Memory>
    requires names { AreNamesOf lookups.now names.now }
    requires tasks { tasks.now ≡ drop 1 lookups.now.numbers.tasks }
    ensures { OnOk result ((q : ℕ) → group_at groups.new q ≡ group_at groups.old q ++ map (task_name lookups.now) (filter (λ info. info.unit.0 == q) tasks.now)) }
{
    for (place, info) in tasks.iter().enumerate() {
        let name = names.task(number_of(place + 1)?);
        keep(groups, alloc, info.unit.0, name)?;
    }
    Ok(())
}

// All of this for a program, of whose tasks those beside main are handed in.
fn running_of(
    alloc: Global,
    lookups: &Lookups,
    names: &NormalNames,
    tasks: &[TaskInfo],
) -> Result<Running, Memory>
    requires names { AreNamesOf lookups.now names.now }
    requires tasks { tasks.now ≡ lookups.now.numbers.tasks }
    ensures { IfOk result (λ made. AreRunning lookups.now made) }
{
    let mut groups = HashMap::new(alloc);
    keep_names(&mut groups, alloc, lookups, names, beside(tasks))?;
    let mut firsts = HashMap::new(alloc);
    keep_firsts(&mut firsts, tasks)?;
    Ok(Running {
        names: groups,
        firsts,
    })
}

impl Running {
    /// Which tasks of a program run which bodies, by names that are those of its normal form.
    pub fn new(alloc: Global, lookups: &Lookups, names: &NormalNames) -> Result<Self, Memory>
        requires { AreNamesOf lookups.now names.now }
        ensures { IfOk result (λ made. AreRunning lookups.now made) }
    {
        running_of(alloc, lookups, names, &lookups.links().numbers().tasks)
    }

    /// The number of the first task that runs the body of a name; 0 where none does.
    pub fn first(&self, name: NameId) -> u32
        ensures { (g : Setting) → AreRunning g self.now → result ≡ first_running g name }
    {
        match self.firsts.get(&name.0) {
            Some(number) => *number,
            None => 0,
        }
    }

    /// The names of the tasks beside main that run the body of a name, ascending.
    pub fn names(&self, name: NameId) -> &[NameId]
        ensures { (g : Setting) → AreRunning g self.now → result.now ≡ map (task_name g) (running g name) }
    {
        group(&self.names, name.0)
    }
}
