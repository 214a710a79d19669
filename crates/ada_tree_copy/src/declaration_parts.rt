// Copies of what declarations are built of: objects, initial values, entries and tasks.

ghost use Rattle.std.specs.Prelude.{◌≡◌, IfOk, map, option_map};
ghost use Rattle.ada_tree.specs.PlainExpr.{plain_drange};
ghost use Rattle.ada_tree.specs.PlainDecl.{plain_shape, plain_init, plain_priority, plain_entry, plain_task};

use crate::TreeCopy;
use crate::building::{
    array_shape_of, entry_of, list_of, one_of, others_of, plain_of, priority_of, unit_of,
};
use ada_stmt_copy::expressions::{ExprCopy, copy_exprs, copy_formals, put, there};
use ada_tree::{Drange, EntryDecl, Init, Memory, Priority, Shape, TaskUnit};
use std::alloc::Global;

impl TreeCopy for Shape {
    /// A copy with the same ids and places.
    fn copy(&self, alloc: Global) -> Result<Shape, Memory>
        ensures { IfOk result (λ copy. plain_shape copy ≡ plain_shape self.now) }
    {
        match self {
            Shape::Plain(mark) => plain_of(mark.copy(alloc)),
            Shape::ConstrainedArray { index, part } => array_shape_of(
                index.copy(alloc),
                part.copy(alloc),
            ),
        }
    }
}

impl TreeCopy for Init {
    /// A copy with the same ids and places.
    fn copy(&self, alloc: Global) -> Result<Init, Memory>
        ensures { IfOk result (λ copy. plain_init copy ≡ plain_init self.now) }
    {
        match self {
            Init::One(value) => one_of(value.copy(alloc)),
            Init::List { parts, span } => list_of(copy_exprs(alloc, parts), *span),
            Init::Others { part, span } => others_of(part.copy(alloc), *span),
        }
    }
}

impl TreeCopy for Priority {
    /// A copy with the same ids and places.
    fn copy(&self, alloc: Global) -> Result<Priority, Memory>
        ensures { IfOk result (λ copy. plain_priority copy ≡ plain_priority self.now) }
    {
        priority_of(self.place, self.value.copy(alloc))
    }
}

impl TreeCopy for EntryDecl {
    /// A copy with the same ids and places.
    fn copy(&self, alloc: Global) -> Result<EntryDecl, Memory>
        ensures { IfOk result (λ copy. plain_entry copy ≡ plain_entry self.now) }
    {
        let family = copy_family(alloc, &self.family);
        let formals = copy_formals(alloc, &self.formals);
        entry_of(self.name, family, formals, self.span)
    }
}

// A copy of the range of a family, which may be left out.
fn copy_family(alloc: Global, family: &Option<Drange>) -> Result<Option<Drange>, Memory>
    ensures { IfOk result (λ copy. option_map plain_drange copy ≡ option_map plain_drange family.now) }
{
    match family {
        Some(range) => there(range.copy(alloc)),
        None => Ok(None),
    }
}

impl TreeCopy for TaskUnit {
    /// A copy with the same ids and places.
    fn copy(&self, alloc: Global) -> Result<TaskUnit, Memory>
        ensures { IfOk result (λ copy. plain_task copy ≡ plain_task self.now) }
    {
        let entries = copy_entries(alloc, &self.entries);
        let priorities = copy_priorities(alloc, &self.priorities);
        unit_of(self.name, self.of_kind, entries, priorities)
    }
}

// A copy of an initial value, which may be left out.
pub(crate) fn copy_init(alloc: Global, init: &Option<Init>) -> Result<Option<Init>, Memory>
    ensures { IfOk result (λ copy. option_map plain_init copy ≡ option_map plain_init init.now) }
{
    match init {
        Some(init) => there(init.copy(alloc)),
        None => Ok(None),
    }
}

fn copy_entries(alloc: Global, entries: &[EntryDecl]) -> Result<Vec<EntryDecl>, Memory>
    ensures { IfOk result (λ copy. map plain_entry copy.items ≡ map plain_entry entries.now) }
{
    let mut copies = Vec::new(alloc);
    for entry in entries {
        put(&mut copies, entry.copy(alloc))?;
    }
    Ok(copies)
}

fn copy_priorities(alloc: Global, priorities: &[Priority]) -> Result<Vec<Priority>, Memory>
    ensures { IfOk result (λ copy. map plain_priority copy.items ≡ map plain_priority priorities.now) }
{
    let mut copies = Vec::new(alloc);
    for priority in priorities {
        put(&mut copies, priority.copy(alloc))?;
    }
    Ok(copies)
}
