// What is looked up before a text is made.

ghost use Rattle.std.specs.Prelude.{IfOk};
ghost use Rattle.collect_xform.specs.Looking.{AreTables};

use crate::names::find_added;
use ada_tree::{Memory, Names};
use collect_statements::Tables;
use normal_lookups::Lookups;
use normal_parts::marks_of;
use std::alloc::Global;

/// The tables of a program, and of its text, whose names these are.
pub fn tables_of(alloc: Global, lookups: &Lookups, names: &Names) -> Result<Tables, Memory>
    ensures { IfOk result (λ tables. AreTables lookups.now names.now tables) }
{
    let mut beside = names.copy(alloc)?;
    let added = find_added(names, &mut beside)?;
    let marks = marks_of(alloc, lookups)?;
    Ok(Tables { added, marks })
}
