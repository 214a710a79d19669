// The formal parameters of an accept, and the parameter of a for loop, as names of an inner scope.

ghost use Rattle.std.specs.Prelude.{◌≡◌, OnOk, map};
ghost use Rattle.ada_tree.specs.declared.statements.ParMode.{ParMode as Mode};
ghost use Rattle.ada_tree.specs.PlainStmt.{plain_formal};
ghost use Rattle.ada_static_rules.specs.Scope.{marking, and_then};
ghost use Rattle.ada_static_rules.specs.Declaring.{with_names, with_formals, formal_thing, first_mark_of, loop_thing};
ghost use Rattle.ada_scopes.specs.Denotations.{plain_thing};
ghost use Rattle.ada_scopes.specs.inner.Inner.{formal_at};

use crate::denotations::Thing;
use crate::readings::{Marking, mark_named};
use crate::scope::Scope;
use ada_tree::{Formal, NameId, ParMode, Word};
use std::alloc::AllocError;

// The mark of a formal, where it is a scalar one.
fn formal_mark(scope: &Scope, id: NameId) -> Option<u32>
    ensures { (mode : Mode) → formal_at mode result ≡ formal_thing mode (marking scope.now id) }
{
    match mark_named(scope, id) {
        Marking::Scalar { mark, .. } => Some(mark),
        _ => None,
    }
}

// A formal of a mode and a mark.
fn formal(mode: ParMode, mark: Option<u32>) -> Thing
    ensures { plain_thing result ≡ formal_at mode mark }
{
    match mark {
        Some(mark) => Thing::Parameter(mode, mark),
        None => Thing::Unclear,
    }
}

// Declares formals of one mode and one mark.
fn declare_group(
    scope: &mut Scope,
    names: &[Word],
    mode: ParMode,
    mark: Option<u32>,
) -> Result<(), AllocError>
    ensures { OnOk result (scope.new ≡ with_names (formal_at mode mark) scope.old names.now) }
{
    for name in names {
        scope.declare(*name, formal(mode, mark))?;
    }
    Ok(())
}

/// Declares the formals of an accept.
pub fn declare_formals(scope: &mut Scope, formals: &[Formal]) -> Result<(), AllocError>
    ensures { OnOk result (scope.new ≡ with_formals scope.old (map plain_formal formals.now)) }
{
    for formal in formals {
        let mark = formal_mark(scope, formal.mark.name);
        declare_group(scope, &formal.names, formal.mode, mark)?;
    }
    Ok(())
}

/// The parameter of a for loop over a range of a kind.
pub fn parameter(scope: &Scope, kind: Option<u32>) -> Thing
    ensures { plain_thing result ≡ loop_thing (and_then (first_mark_of scope.now.types) kind) }
{
    match kind {
        Some(kind) => match scope.table().first_mark(kind) {
            Some(mark) => Thing::LoopParameter(mark),
            None => Thing::Unclear,
        },
        None => Thing::Unclear,
    }
}
