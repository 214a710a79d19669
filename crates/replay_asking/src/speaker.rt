// What is looked up before a text is rewritten.

use crate::names::AddedNames;
use ada_tree::NameId;
use task_links::TaskNames;

/// Ids of a replay text that are looked up once: those of the names that are added; those of the doubles of entries, by the entries' ids, and the one of any other id; and of each entry, from 1, the type whose positions stand for the indices of the family, where the indices are no integers.
#[derive(Drop)]
pub struct Tables {
    pub added: AddedNames,
    pub doubles: Vec<NameId>,
    pub other: NameId,
    pub marks: Vec<Option<NameId>>,
}

/// A unit that is rewritten: the tables of its program, the numbers with what names of tasks and entries mean there, and the number of a task that runs the unit.
#[derive(Clone, Copy)]
pub struct Speaker<'a> {
    pub tables: &'a Tables,
    pub numbers: &'a TaskNames<'a>,
    pub task: u32,
}
