// The numbers of a program's tasks and entries.

ghost use Rattle.std.specs.Prelude.{◌≡◌, ◌==◌, ◌&&◌, ◌<◌, position, length, IfSome};

use ada_tree::NameId;
use std::marker::Model;

/// The tasks and entries of one program by their numbers. A contract sees the record of its name and the two lists.
///
/// Place 0 of `tasks` is the main program; place 0 of `entries` is entry 1.
#[derive(Drop)]
pub struct Numbers {
    pub main: NameId,
    pub tasks: Vec<TaskInfo>,
    pub entries: Vec<EntryInfo>,
}

impl Model for Numbers {
    ghost use Rattle.syn_event.specs.Numbering.{Numbering};
    ghost use Rattle.std.specs.Prelude.{◌<◌, ◌^◌, length, vec_len};

    ghost Value = { Numbering };

    ghost view = { λ n. record { main = n.main; tasks = n.tasks.items; entries = n.entries.items } };

    ghost invariant = { λ n. (vec_len n.tasks < 2 ^ 32) × (vec_len n.entries < 2 ^ 32) };
}

/// A task: its name, whether a rewriter added it, and the task or task type whose body it runs. A member of an array of tasks has its index,
/// as a value or a position.
#[derive(Clone, Copy, Debug, PartialEq, Eq)]
pub struct TaskInfo {
    pub name: NameId,
    pub added: bool,
    pub unit: NameId,
    pub member: Option<i32>,
}

/// An entry: its name, the number of the task that owns it, and for a family the first and last index (0 and 0 for a plain entry).
/// `stands_for` is the original number of the entry that an added one stands for.
#[derive(Clone, Copy, Debug, PartialEq, Eq)]
pub struct EntryInfo {
    pub name: NameId,
    pub owner: u32,
    pub family: bool,
    pub first: i32,
    pub last: i32,
    pub added: bool,
    pub stands_for: Option<u32>,
}

/// How a program is checked: as an original, or as any text, rewritten ones included.
#[derive(Clone, Copy, Debug, PartialEq, Eq)]
pub enum Mode {
    Original,
    Any,
}

impl Numbers {
    ghost use Rattle.std.specs.Prelude.{◌≡◌, option_copied};
    ghost use Rattle.syn_event.specs.Numbering.{entry_at, owner_of, is_added_task, task_named, entry_named};

    /// The entry of this number, from 1.
    pub fn entry(&self, e: u32) -> Option<&EntryInfo>
        ensures { option_copied result ≡ entry_at self.now e }
    {
        if e == 0 {
            return None;
        }
        self.entries.get(e as usize - 1)
    }

    /// The task that owns the entry `e`, from 1.
    pub fn owner(&self, e: u32) -> u32
        ensures { result ≡ owner_of self.now e }
    {
        match self.entry(e) {
            Some(info) => info.owner,
            None => 0,
        }
    }

    /// Whether a rewriter added the task of this number, from 0.
    pub fn is_added_task(&self, t: u32) -> bool
        ensures { result ≡ is_added_task self.now t }
    {
        match self.tasks.get(t as usize) {
            Some(info) => info.added,
            None => false,
        }
    }

    /// The number of the first task of that name, the main program among them.
    pub fn task_named(&self, name: NameId) -> Option<u32>
        ensures { result ≡ task_named self.now name }
    {
        match task_place(&self.tasks, name) {
            Some(place) => Some(place as u32),
            None => None,
        }
    }

    /// The number, from 1, of the first entry of that name among those that the task `owner` has.
    pub fn entry_named(&self, owner: u32, name: NameId) -> Option<u32>
        ensures { result ≡ entry_named self.now owner name }
    {
        match entry_place(&self.entries, owner, name) {
            Some(place) => Some(place as u32 + 1),
            None => None,
        }
    }
}

// The place of the first task of that name.
fn task_place(tasks: &[TaskInfo], name: NameId) -> Option<usize>
    ensures place { result ≡ position (λ info. info.name.0 == name.0) tasks.now }
    ensures within { IfSome result (λ place. place < length tasks.now) }
{
    tasks.iter().position(|info| info.name.0 == name.0)
}

// The place of the first entry of that name that the task owns.
fn entry_place(entries: &[EntryInfo], owner: u32, name: NameId) -> Option<usize>
    ensures place { result ≡ position (λ info. (info.owner == owner) && (info.name.0 == name.0)) entries.now }
    ensures within { IfSome result (λ place. place < length entries.now) }
{
    entries
        .iter()
        .position(|info| info.owner == owner && info.name.0 == name.0)
}
