// The values that come back from an accept body (6.2, 6.4.1).

ghost use Rattle.std.specs.Prelude.{◌≡◌, ◌++◌, [], map, OnOk, OnErr};
ghost use Rattle.ada_tree.specs.PlainExpr.{plain_expr};
ghost use Rattle.ada_value.specs.Variables.{checked_for, object_named};
ghost use Rattle.task_model.specs.Calls.{comes_back, finals_if, finals_in, stored_back, copied_back, variable_of};
ghost use Rattle.task_links.specs.store.Plain.{plain_variable};
ghost use Rattle.task_waits.specs.calls.Looks.{raised_by, vars_or};

use ada_tree::{Expr, Memory, NameId, ParMode};
use ada_value::{Raised, Value};
use task_links::store::{Objects, Variable};
use task_links::variable_of;
use task_model::FormalParameter;

// Whether the value of a formal of this mode comes back.
fn comes_back(mode: ParMode) -> bool
    ensures { result ≡ comes_back mode }
{
    match mode {
        ParMode::Take => false,
        ParMode::Give => true,
        ParMode::Both => true,
    }
}

// Adds the value of a variable that is a formal of this mode, where it comes back.
fn put_final(values: &mut Vec<Value>, mode: ParMode, variable: &Variable) -> Result<(), Memory>
    ensures { OnOk result (values.new.items ≡ values.old.items ++ finals_if (comes_back mode) (plain_variable variable.now) []) }
{
    if comes_back(mode) {
        values.push(variable.value(0))?;
    }
    Ok(())
}

/// The last values of the `out` and `in out` formals of an accept body in order, in place of what is in the list; the formals are the
/// latest variables (6.2). After an error, which comes by want of memory, the list is empty.
pub fn finals(
    objects: &Objects,
    formals: &[FormalParameter],
    values: &mut Vec<Value>,
) -> Result<(), Memory>
    ensures ok { OnOk result (values.new.items ≡ finals_in formals.now objects.now) }
    ensures err { OnErr result (values.new.items ≡ []) }
{
    values.clear();
    for (place, formal) in formals.iter().enumerate() {
        match objects.at(place) {
            Some(variable) => match put_final(values, formal.mode, &variable) {
                Ok(()) => {}
                Err(_) => {
                    values.clear();
                    return Err(Memory);
                }
            },
            None => return Ok(()),
        }
    }
    Ok(())
}

// A value as it goes to the variable of a name.
fn checked_for(objects: &Objects, name: NameId, value: Value) -> Result<Value, Raised>
    ensures { result ≡ checked_for (object_named objects.now name) value }
{
    match objects.named(name) {
        Some(variable) => variable.checked(value),
        None => Ok(value),
    }
}

// One value comes back to a variable; outside its subtype CONSTRAINT_ERROR is raised, and the variable keeps its value.
fn store_back(objects: &mut Objects, name: Option<NameId>, value: Value) -> Option<Raised>
    ensures stored { objects.new ≡ vars_or objects.old (stored_back objects.old name value) }
    ensures raised { result ≡ raised_by (stored_back objects.old name value) }
{
    match name {
        Some(name) => match checked_for(objects, name, value) {
            Ok(value) => {
                objects.set(name, 0, value);
                None
            }
            Err(raised) => Some(raised),
        },
        None => None,
    }
}

/// Values come back to the actuals of a call, in the order of the formals. The first that does not fit its variable stops, and the earlier
/// ones stay; the exception that stopped it is the answer (6.4.1). It takes no memory.
pub fn copy_back(
    objects: &mut Objects,
    formals: &[FormalParameter],
    actuals: &[Expr],
    values: &[Value],
) -> Option<Raised>
    ensures { record { vars = objects.new; stopped = result } ≡ copied_back formals.now (map plain_expr actuals.now) values.now objects.old }
{
    let mut taken: usize = 0;
    for (place, formal) in formals.iter().enumerate() {
        if place >= actuals.len() {
            return None;
        }
        let actual = &actuals[place];
        if !comes_back(formal.mode) {
            continue;
        }
        if taken >= values.len() {
            return None;
        }
        let variable = variable_of(actual);
        match store_back(objects, variable, values[taken]) {
            Some(raised) => return Some(raised),
            None => {}
        }
        taken += 1;
    }
    None
}
