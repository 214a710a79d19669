// The names of a normal form, as they are given.

ghost use Rattle.std.specs.Prelude.{◌≡◌, ◌+◌, ◌<◌, IfOk, OnOk, length, max, []};
ghost use Rattle.ada_tree.specs.TypeTable.{TypeTable};
ghost use Rattle.ada_tree.specs.PlainProgram.{plain_program};
ghost use Rattle.task_model.specs.Setting.{Setting};
ghost use Rattle.normal_model.specs.Names.{task_name_at, variable_name};
ghost use Rattle.normal_lookups.specs.names.SoFar.{AreNamesOf};

use crate::names::task_names::name_tasks;
use crate::names::texts::variable_text;
use ada_tree::{Memory, NameId, Names, Program};
use std::alloc::Global;
use syn_event::Numbers;

/// The names of a normal form as far as they are given: all texts, and the ids of the tasks by their numbers and of the variables by theirs, both from 0.
#[derive(Drop)]
pub struct NormalNames {
    pub names: Names,
    pub tasks: Vec<NameId>,
    pub variables: Vec<NameId>,
}

/// The names of the normal form of a program, where no variable has one yet.
pub fn names_of(alloc: Global, program: &Program, numbers: &Numbers) -> Result<NormalNames, Memory>
    ensures names { IfOk result (λ names. (types : TypeTable) → AreNamesOf record { program = plain_program program.now; types = types; numbers = numbers.now } names) }
    ensures none { IfOk result (λ names. names.variables.items ≡ []) }
{
    let mut names = program.names.copy(alloc)?;
    let tasks = name_tasks(alloc, &program.names, &numbers.tasks, &mut names)?;
    Ok(NormalNames {
        names,
        tasks,
        variables: Vec::new(alloc),
    })
}

impl NormalNames {
    // The next variable gets its name.
    fn add(&mut self, alloc: Global, number: u32) -> Result<(), Memory>
        requires { number ≡ length self.old.variables.items }
        ensures names { OnOk result ((g : Setting) → AreNamesOf g self.old → AreNamesOf g self.new) }
        ensures count { OnOk result (length self.new.variables.items ≡ number + 1) }
    {
        let text = variable_text(alloc, number)?;
        let id = self.names.intern(text.as_str())?;
        self.variables.push(id)?;
        Ok(())
    }

    // The name of a variable that has one.
    fn given(&self, number: u32) -> NameId
        requires { number < length self.now.variables.items }
        ensures { (g : Setting) → AreNamesOf g self.now → result ≡ variable_name g number }
    {
        self.variables[number as usize]
    }

    /// The name of the variable of a number from 0. It gets one now where it has none, and so does each before it.
    pub fn declare(&mut self, alloc: Global, number: u32) -> Result<NameId, Memory>
        ensures id { IfOk result (λ id. (g : Setting) → AreNamesOf g self.old → id ≡ variable_name g number) }
        ensures names { OnOk result ((g : Setting) → AreNamesOf g self.old → AreNamesOf g self.new) }
        ensures count { OnOk result (length self.new.variables.items ≡ max (length self.old.variables.items) (number + 1)) }
    {
        while self.variables.len() <= number as usize {
            let next = self.variables.len() as u32;
            self.add(alloc, next)?;
        }
        Ok(self.given(number))
    }

    // A copy, in which all names have the same ids.
    fn copy(&self, alloc: Global) -> Result<NormalNames, Memory>
        ensures { IfOk result (λ names. (g : Setting) → AreNamesOf g self.now → AreNamesOf g names) }
    {
        let names = self.names.copy(alloc)?;
        let tasks = self.tasks.to_vec(alloc)?;
        let variables = self.variables.to_vec(alloc)?;
        Ok(NormalNames {
            names,
            tasks,
            variables,
        })
    }

    /// The name of the variable of a number from 0: the one that it has, or the one that it would get now, for which all names are copied.
    pub fn variable(&self, alloc: Global, number: u32) -> Result<NameId, Memory>
        ensures { IfOk result (λ id. (g : Setting) → AreNamesOf g self.now → id ≡ variable_name g number) }
    {
        match self.variables.get(number as usize) {
            Some(id) => Ok(*id),
            None => {
                let mut names = self.copy(alloc)?;
                names.declare(alloc, number)
            }
        }
    }

    /// The name of the task of a number.
    pub fn task(&self, number: u32) -> NameId
        ensures { (g : Setting) → AreNamesOf g self.now → result ≡ task_name_at g number }
    {
        match self.tasks.get(number as usize) {
            Some(id) => *id,
            None => NameId(0),
        }
    }
}
