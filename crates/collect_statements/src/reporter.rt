// What is looked up before a text is rewritten.

use ada_tree::NameId;
use collect_model::AddedNames;
use task_links::TaskNames;

/// What is looked up once for a collecting text: the ids of the names that are added, and of each entry, from 1, the type whose positions stand for the indices of the family, where the indices are no integers.
#[derive(Drop)]
pub struct Tables {
    pub added: AddedNames,
    pub marks: Vec<Option<NameId>>,
}

/// A unit that is rewritten: the tables of its program, the numbers with what names of tasks and entries mean there, and the number of the task that runs the unit.
#[derive(Clone, Copy)]
pub struct Reporter<'a> {
    pub tables: &'a Tables,
    pub numbers: &'a TaskNames<'a>,
    pub task: u32,
}
