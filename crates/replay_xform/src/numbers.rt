// The numbers of the replay text.

ghost use Rattle.std.specs.Prelude.{◌≡◌, IfOk};
ghost use Rattle.replay_model.specs.Names.{replay_names};
ghost use Rattle.replay_model.specs.ReplayNumbers.{numbers_replayed};

use crate::numbering::numbers_by;
use crate::tables::tables_of;
use ada_tree::{Memory, Names};
use normal_lookups::Lookups;
use replay_asking::Speaker;
use std::alloc::Global;
use syn_event::Numbers;
use task_links::TaskNames;

/// The numbers of the replay text of a normal form, whose names these are, by what is looked up of the normal form. They hang on no sequence. The only error is want of memory.
pub fn replay_numbers(alloc: Global, lookups: &Lookups, names: &Names) -> Result<Numbers, Memory>
    requires { names.now ≡ replay_names lookups.now.program }
    ensures { IfOk result (λ made. made ≡ numbers_replayed lookups.now) }
{
    let q = lookups.links().program();
    let numbers = lookups.links().numbers();
    let tables = tables_of(alloc, lookups, &q.names, names)?;
    let tasks = TaskNames::new(alloc, numbers)?;
    let speaker = Speaker {
        tables: &tables,
        numbers: &tasks,
        task: 0,
    };
    numbers_by(alloc, &speaker, names)
}
