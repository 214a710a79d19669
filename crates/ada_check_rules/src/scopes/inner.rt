// The formal parameters of an accept and the parameter of a for loop, as names that stand around statements.

ghost use Rattle.std.specs.Prelude.{◌≡◌, OnOk, map, option_map};
ghost use Rattle.ada_tree.specs.PlainStmt.{plain_formal, plain_scheme};
ghost use Rattle.syn_event.specs.declared.meanings.Meant.TheVariants.{Inner};
ghost use Rattle.syn_event.specs.CheckSites.{with_meant, formal_names, with_parameter};

use crate::scopes::check_scopes::CheckScopes;
use ada_tree::{Formal, Scheme, Word};
use std::alloc::AllocError;
use syn_event::Meant;

/// Declares names that are objects of a body, formals or parameters.
pub(crate) fn declare_inner(around: &mut CheckScopes, names: &[Word]) -> Result<(), AllocError>
    ensures { OnOk result (around.new ≡ with_meant Inner around.old names.now) }
{
    for name in names {
        around.declare(*name, Meant::Inner)?;
    }
    Ok(())
}

/// Declares the formals of an accept.
pub fn declare_formals(around: &mut CheckScopes, formals: &[Formal]) -> Result<(), AllocError>
    ensures { OnOk result (around.new ≡ with_meant Inner around.old (formal_names (map plain_formal formals.now))) }
{
    for formal in formals {
        declare_inner(around, &formal.names)?;
    }
    Ok(())
}

/// Declares the parameter of a loop, where it has one.
pub fn declare_parameter(
    around: &mut CheckScopes,
    scheme: &Option<Scheme>,
) -> Result<(), AllocError>
    ensures { OnOk result (around.new ≡ with_parameter around.old (option_map plain_scheme scheme.now)) }
{
    match scheme {
        Some(Scheme::For { name, .. }) => around.declare(*name, Meant::Inner),
        _ => Ok(()),
    }
}
