// The entries that each task gets.

ghost use Rattle.std.specs.Prelude.{◌≡◌, ◌++◌, IfOk, OnOk, map};
ghost use Rattle.ada_tree.specs.PlainDecl.{plain_entry, plain_task};
ghost use Rattle.ada_stmt_copy.specs.expressions.Parts.{OkWith};
ghost use Rattle.replay_asking.specs.Looked.{voice_of};
ghost use Rattle.replay_declarations.specs.ids.Arranged.{double_entry, more_entries};

use crate::control::plain_entry;
use ada_tree::{EntryDecl, Memory, TaskUnit};
use ada_tree_copy::TreeCopy;
use replay_asking::making::{append_entries, entries_before, one_entry};
use replay_asking::{Speaker, double_word};
use std::alloc::Global;
use tree_rewriting::making::{keep_entries, push_entry};

// The double of an entry.
fn double_entry(alloc: Global, x: &Speaker, entry: &EntryDecl) -> Result<EntryDecl, Memory>
    ensures { IfOk result (λ made. plain_entry made ≡ double_entry (voice_of x.now) (plain_entry entry.now)) }
{
    match entry.copy(alloc) {
        Ok(copy) => Ok(EntryDecl {
            name: double_word(x, copy.name),
            family: copy.family,
            formals: copy.formals,
            span: copy.span,
        }),
        Err(e) => Err(e),
    }
}

// The doubles of entries go behind others.
fn put_doubles(
    alloc: Global,
    x: &Speaker,
    entries: &[EntryDecl],
    out: &mut Vec<EntryDecl>,
) -> Result<(), Memory>
    ensures { OnOk result (map plain_entry out.new.items ≡ map plain_entry out.old.items ++ map (double_entry (voice_of x.now)) (map plain_entry entries.now)) }
{
    for entry in entries {
        push_entry(out, double_entry(alloc, x, entry))?;
    }
    Ok(())
}

/// A task gets the doubles of its entries, and two entries more.
pub(crate) fn add_entries(alloc: Global, x: &Speaker, unit: &mut TaskUnit) -> Result<(), Memory>
    ensures { OnOk result (plain_task unit.new ≡ record { name = (plain_task unit.old).name; of_kind = (plain_task unit.old).of_kind; entries = more_entries (voice_of x.now) (plain_task unit.old); priorities = (plain_task unit.old).priorities }) }
{
    let s = unit.name.span;
    let mut doubles = Vec::new(alloc);
    let done = put_doubles(alloc, x, &unit.entries, &mut doubles);
    let join = one_entry(alloc, plain_entry(alloc, x.tables.added.join, s));
    let last = entries_before(alloc, plain_entry(alloc, x.tables.added.never, s), join);
    let doubled = append_entries(&mut unit.entries, keep_entries(doubles, done));
    let added = append_entries(&mut unit.entries, last);
    both_done(doubled, added)
}

// Two steps that went well.
fn both_done(first: Result<(), Memory>, second: Result<(), Memory>) -> Result<(), Memory>
    ensures { OnOk result (OkWith first (λ _. OkWith second (λ _. Unit {0}))) }
{
    match first {
        Ok(()) => second,
        Err(e) => Err(e),
    }
}
