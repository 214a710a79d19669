// The formal that each entry has more.

ghost use Rattle.std.specs.Prelude.{◌≡◌, OnOk, map};
ghost use Rattle.ada_tree.specs.PlainDecl.{plain_entry, plain_task};
ghost use Rattle.collect_model.specs.CollectTree.{entry_telling, task_telling};

use ada_tree::{EntryDecl, Memory, TaskUnit};
use collect_model::AddedNames;
use collect_statements::formals_telling;
use std::alloc::Global;

// An entry gets the formal of the caller, in front of its others.
fn tell_entry(alloc: Global, n: &AddedNames, entry: &mut EntryDecl) -> Result<(), Memory>
    ensures { OnOk result (plain_entry entry.new ≡ entry_telling n.now (plain_entry entry.old)) }
{
    let formals = formals_telling(alloc, n, &entry.formals, entry.name.span)?;
    entry.formals = formals;
    Ok(())
}

// The entries of a task get the formal of the caller.
fn tell_entries(alloc: Global, n: &AddedNames, entries: &mut Vec<EntryDecl>) -> Result<(), Memory>
    ensures { OnOk result (map plain_entry entries.new.items ≡ map (entry_telling n.now) (map plain_entry entries.old.items)) }
{
    for entry in entries.iter_mut() {
        tell_entry(alloc, n, entry)?;
    }
    Ok(())
}

/// A task becomes that of the collecting text.
pub fn tell_task(alloc: Global, n: &AddedNames, unit: &mut TaskUnit) -> Result<(), Memory>
    ensures { OnOk result (plain_task unit.new ≡ task_telling n.now (plain_task unit.old)) }
{
    tell_entries(alloc, n, &mut unit.entries)
}
