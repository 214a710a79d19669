// What is counted over the whole program: tasks and entries.

ghost use Rattle.std.specs.Prelude.{◌≡◌, ◌*◌, ◌-◌, length, map};
ghost use Rattle.ada_tree.specs.PlainDecl.{plain_entry};
ghost use Rattle.syn_event.specs.declared.limits.What.{What};
ghost use Rattle.syn_event.specs.declared.limits.What.TheVariants.{Entries};
ghost use Rattle.syn_event.specs.CheckScope.{CheckScope};
ghost use Rattle.syn_event.specs.NamedTasks.{task_count};
ghost use Rattle.syn_event.specs.CheckSites.{numbered, tasks_sites, entries_of_part, entries_sites};
ghost use Rattle.ada_check_rules.specs.rules.Amounts.{capped};
ghost use Rattle.ada_check_rules.specs.rules.RefusedFirst.{refused_first};
ghost use Rattle.ada_task_numbers.specs.task_objects.PlainNames.{plain_named_tasks};
ghost use Rattle.ada_check_rules.specs.rules.inner.Counted.{IsCounted};

use crate::task_objects::{NamedTasks, size};
use ada_check_rules::rules::{Counted, Refusal, Standard, count_on, plus, product};
use ada_tree::{EntryDecl, Types};
use syn_event::What;

/// How many tasks a name stands for.
pub(crate) fn task_count(types: &Types, part: &NamedTasks) -> u64
    ensures { result ≡ capped (task_count types.now (plain_named_tasks part.now)) }
{
    match part.index_range {
        Some(range) => size(types, range),
        None => 1,
    }
}

/// The tasks of a program.
pub fn refuse_tasks(by: &Standard, types: &Types, parts: &[NamedTasks]) -> Option<Refusal>
    ensures { (around : CheckScope) → around.types ≡ types.now → result ≡ refused_first by.now (tasks_sites around 0 (map plain_named_tasks parts.now)) }
{
    let mut counted = Counted {
        count: 0,
        refusal: None,
    };
    for part in parts {
        let here = task_count(types, part);
        counted = count_on(by, What::Tasks, counted, here, part.place);
    }
    counted.refusal
}

// The entries of a task that is declared as one.
fn count_single(by: &Standard, so_far: Counted, entries: &[EntryDecl]) -> Counted
    ensures { (around : CheckScope) → IsCounted by.now so_far (numbered around Entries so_far.count (map (λ e. e.span) (map plain_entry entries.now))) (length entries.now) result }
{
    let mut counted = so_far;
    for entry in entries {
        counted = count_on(by, What::Entries, counted, 1, entry.span);
    }
    counted
}

// The entries of the tasks that a name stands for.
fn count_entries(by: &Standard, types: &Types, so_far: Counted, part: &NamedTasks) -> Counted
    ensures { (around : CheckScope) → around.types ≡ types.now → IsCounted by.now so_far (entries_of_part around so_far.count (plain_named_tasks part.now)) (task_count types.now (plain_named_tasks part.now) * length (plain_named_tasks part.now).unit.entries) result }
{
    let each = part.unit.entries.len() as u64;
    let here = product(task_count(types, part), each);
    if part.unit.of_kind {
        count_on(by, What::Entries, so_far, here, part.place)
    } else {
        let count = plus(so_far.count, here);
        let single = count_single(by, so_far, &part.unit.entries);
        Counted {
            count,
            refusal: single.refusal,
        }
    }
}

/// The entries of a program.
pub fn refuse_entries(by: &Standard, types: &Types, parts: &[NamedTasks]) -> Option<Refusal>
    ensures { (around : CheckScope) → around.types ≡ types.now → result ≡ refused_first by.now (entries_sites around 0 (map plain_named_tasks parts.now)) }
{
    let mut counted = Counted {
        count: 0,
        refusal: None,
    };
    for part in parts {
        counted = count_entries(by, types, counted, part);
    }
    counted.refusal
}
