// The formal parameters of a formal part.

ghost use Rattle.std.specs.Prelude.{◌≡◌, ◌++◌, map, IfOk, OnOk};
ghost use Rattle.ada_tree.specs.PlainExpr.{plain_expr};
ghost use Rattle.ada_tree.specs.PlainStmt.{plain_formal};
ghost use Rattle.task_model.specs.Calls.{variable_of};
ghost use Rattle.task_model.specs.Setting.{parameters_of};
ghost use Rattle.task_links.specs.inner.Made.{parameter_named};

use crate::type_names::TypeNames;
use ada_tree::{Expr, ExprKind, Formal, Memory, NameId, ParMode, Word};
use ada_value::Limits;
use std::alloc::Global;
use task_model::FormalParameter;

// Adds formals of one mode and one subtype.
fn add_group(
    parameters: &mut Vec<FormalParameter>,
    words: &[Word],
    mode: ParMode,
    limits: Limits,
) -> Result<(), Memory>
    ensures { OnOk result (parameters.new.items ≡ parameters.old.items ++ map (parameter_named mode limits) words.now) }
{
    for word in words {
        parameters.push(FormalParameter {
            name: word.name,
            mode,
            limits,
        })?;
    }
    Ok(())
}

/// The formals of a formal part, one by one and in order (6.1, 9.5).
pub fn parameters_of(
    alloc: Global,
    names: &TypeNames,
    formals: &[Formal],
) -> Result<Vec<FormalParameter>, Memory>
    ensures { IfOk result (λ parameters. parameters.items ≡ parameters_of names.now (map plain_formal formals.now)) }
{
    let mut parameters = Vec::new(alloc);
    for formal in formals {
        let limits = names.limits_named(formal.mark.name);
        add_group(&mut parameters, &formal.names, formal.mode, limits)?;
    }
    Ok(parameters)
}

/// The variable that an actual is, where it is one (6.4.1).
pub fn variable_of(actual: &Expr) -> Option<NameId>
    ensures { result ≡ variable_of (plain_expr actual.now) }
{
    match &actual.kind {
        ExprKind::Name(name) => Some(*name),
        _ => None,
    }
}
