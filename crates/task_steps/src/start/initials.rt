// The values with which an object starts (3.2.1).

ghost use Rattle.std.specs.Prelude.{◌≡◌, map, option_map, replicate, IfOk};
ghost use Rattle.ada_tree.specs.PlainExpr.{plain_expr};
ghost use Rattle.ada_tree.specs.PlainDecl.{plain_init};
ghost use Rattle.task_model.specs.Starting.{initial, initials, value_count, value_or_lower};

use ada_tree::{Expr, Init, Memory, Types};
use ada_value::{Form, Limits, Raised, Value, evaluate, lies_in, lower, position_of};
use std::alloc::Global;
use task_links::{StaticNames, TypeNames};

// An initial value; one that raises or lies outside the subtype counts for none.
fn value_or_lower(types: &Types, limits: Limits, given: Result<Value, Raised>) -> Value
    ensures { result ≡ value_or_lower types.now limits given }
{
    match given {
        Ok(value) => {
            if lies_in(limits, position_of(value)) {
                value
            } else {
                lower(types, limits)
            }
        }
        Err(_) => lower(types, limits),
    }
}

// The value that an initial expression gives to an object or a component of a subtype.
fn initial(names: &TypeNames, limits: Limits, e: &Expr) -> Value
    ensures { result ≡ initial names.now limits (plain_expr e.now) }
{
    value_or_lower(names.types(), limits, evaluate(e, &StaticNames { names }))
}

// How many values an object has; for more than a list can have there is no memory.
fn value_count(index: Option<Limits>) -> Result<usize, Memory>
    ensures { IfOk result (λ count. count ≡ value_count index) }
{
    match index {
        None => Ok(1),
        Some(range) => {
            if range.last < range.first {
                return Ok(0);
            }
            match (range.last.abs_diff(range.first) as usize).checked_add(1) {
                Some(count) => Ok(count),
                None => Err(Memory),
            }
        }
    }
}

// One value, so many times.
fn replicated(alloc: Global, count: usize, value: Value) -> Result<Vec<Value>, Memory>
    ensures { IfOk result (λ values. values.items ≡ replicate count value) }
{
    let mut values = Vec::new(alloc);
    values.resize(count, value)?;
    Ok(values)
}

// One value for each of these expressions.
fn listed(
    alloc: Global,
    names: &TypeNames,
    limits: Limits,
    parts: &[Expr],
) -> Result<Vec<Value>, Memory>
    ensures { IfOk result (λ values. values.items ≡ map (initial names.now limits) (map plain_expr parts.now)) }
{
    let mut values = Vec::with_capacity(alloc, parts.len())?;
    for part in parts {
        values.push(initial(names, limits, part))?;
    }
    Ok(values)
}

/// The values with which an object of a form starts: those of its initial value, and without one the lower bound of its subtype, or of
/// its components' (this project's rule). It fails by want of memory alone.
pub(crate) fn initials(
    alloc: Global,
    names: &TypeNames,
    form: Form,
    init: &Option<Init>,
) -> Result<Vec<Value>, Memory>
    ensures { IfOk result (λ values. values.items ≡ initials names.now form (option_map plain_init init.now)) }
{
    match init {
        None => replicated(
            alloc,
            value_count(form.index)?,
            lower(names.types(), form.limits),
        ),
        Some(Init::One(e)) => replicated(
            alloc,
            value_count(form.index)?,
            initial(names, form.limits, e),
        ),
        Some(Init::List { parts, .. }) => listed(alloc, names, form.limits, parts),
        Some(Init::Others { part, .. }) => replicated(
            alloc,
            value_count(form.index)?,
            initial(names, form.limits, part),
        ),
    }
}
