// The ranges of arrays of tasks.

ghost use Rattle.std.specs.Prelude.{◌≡◌, IfOk, map, option_map};
ghost use Rattle.ada_tree.specs.PlainExpr.{plain_drange};
ghost use Rattle.ada_tree.specs.PlainProgram.{PProgram, plain_program};
ghost use Rattle.normal_model.specs.Ranges.{array_range};
ghost use Rattle.normal_lookups.specs.inner.Kept.{ranges_named, seen_range};

use ada_task_numbers::task_objects::{NamedTasks, task_names_of};
use ada_tree::{Drange, Memory, NameId, Program};
use scoped_names::ScopedNames;
use std::alloc::Global;

// The ranges of what stands for tasks, each by its name; that of the first of a name is found.
fn parts_named<'p>(
    alloc: Global,
    parts: &[NamedTasks<'p>],
) -> Result<ScopedNames<Option<&'p Drange>>, Memory>
    ensures { IfOk result (λ ranges. ranges ≡ map (λ x. (x.name.name.0, x.index_range)) parts.now) }
{
    let mut ranges = ScopedNames::new(alloc);
    for place in (0..parts.len()).rev() {
        let part = parts[place];
        ranges.declare(part.name.name.0, part.index_range)?;
    }
    Ok(ranges)
}

/// The ranges of what stands for tasks in a program, each by its name.
pub(crate) fn ranges_of<'p>(
    alloc: Global,
    program: &'p Program,
) -> Result<ScopedNames<Option<&'p Drange>>, Memory>
    ensures { IfOk result (λ ranges. map seen_range ranges ≡ ranges_named (plain_program program.now)) }
{
    let parts = task_names_of(alloc, program)?;
    let ranges = parts_named(alloc, &parts)?;
    Ok(ranges)
}

/// The range of an array of tasks, as it is declared.
pub(crate) fn array_range<'p>(
    ranges: &ScopedNames<Option<&'p Drange>>,
    name: NameId,
) -> Option<&'p Drange>
    ensures { (p : PProgram) → map seen_range ranges.now ≡ ranges_named p → option_map (λ r. plain_drange r.now) result ≡ array_range p name }
{
    match ranges.meaning(name.0) {
        Some(range) => *range,
        None => None,
    }
}
