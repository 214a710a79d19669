// The declared names of kinds.

ghost use Rattle.std.specs.Prelude.{◌≡◌, IfOk, unwrap_or};
ghost use Rattle.ada_tree.specs.TypeTable.{TypeTable};
ghost use Rattle.normal_model.specs.Ranges.{kind_name};
ghost use Rattle.normal_lookups.specs.inner.Kept.{kinds_named};

use ada_tree::{Mark, Memory, NameId, Types};
use scoped_names::ScopedNames;
use std::alloc::Global;

// The names of marks, each by its kind; that of the first mark of a kind is found.
fn marks_named(alloc: Global, marks: &[Mark]) -> Result<ScopedNames<Option<NameId>>, Memory>
    ensures { IfOk result (λ names. (types : TypeTable) → types.marks ≡ marks.now → names ≡ kinds_named types) }
{
    let mut names = ScopedNames::new(alloc);
    for place in (0..marks.len()).rev() {
        let mark = marks[place];
        names.declare(mark.kind, mark.name)?;
    }
    Ok(names)
}

/// The names of the marks of a table, each by its kind.
pub(crate) fn kind_names(
    alloc: Global,
    types: &Types,
) -> Result<ScopedNames<Option<NameId>>, Memory>
    ensures { IfOk result (λ names. names ≡ kinds_named types.now) }
{
    marks_named(alloc, &types.marks)
}

// A name, or that of INTEGER where there is none.
fn name_or(name: Option<NameId>) -> NameId
    ensures { result ≡ unwrap_or name (record { 0 = 0 }) }
{
    match name {
        Some(name) => name,
        None => NameId::INTEGER,
    }
}

/// The declared name of a kind; where there is none it is INTEGER.
pub(crate) fn kind_name(names: &ScopedNames<Option<NameId>>, kind: u32) -> NameId
    ensures { (types : TypeTable) → names.now ≡ kinds_named types → result ≡ kind_name types kind }
{
    match names.meaning(kind) {
        Some(name) => name_or(*name),
        None => NameId::INTEGER,
    }
}
