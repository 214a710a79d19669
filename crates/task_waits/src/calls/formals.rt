// The formals of an accept body as its variables.

ghost use Rattle.std.specs.Prelude.{◌≡◌, ◌++◌, ◌∷◌, option_copied, OnOk, OnErr};
ghost use Rattle.task_model.specs.Calls.{opened_object, opened_objects};
ghost use Rattle.task_waits.specs.calls.Looks.{value_or_lower};

use ada_tree::{Memory, Types};
use ada_value::{Form, Value, lower};
use task_links::store::Objects;
use task_model::FormalParameter;

// The value with which a formal opens, where one stands for it.
fn value_or_lower(types: &Types, formal: FormalParameter, value: Option<&Value>) -> Value
    ensures { result ≡ value_or_lower types.now formal (option_copied value.entry) }
{
    match value {
        Some(value) => *value,
        None => lower(types, formal.limits),
    }
}

// One formal as the latest variable.
fn open_formal(objects: &mut Objects, formal: FormalParameter, value: Value) -> Result<(), Memory>
    ensures ok { OnOk result (objects.new ≡ opened_object formal value ∷ objects.old) }
    ensures err { OnErr result (objects.new ≡ objects.old) }
{
    let form = Form {
        limits: formal.limits,
        index: None,
    };
    objects.push(formal.name, form, &[value])
}

/// Formals become the latest variables, the first one the very latest, with these values in order; one without a value has the lower bound
/// of its subtype (6.2). After an error, which comes by want of memory, the variables are as before.
pub fn open_formals(
    types: &Types,
    objects: &mut Objects,
    formals: &[FormalParameter],
    values: &[Value],
) -> Result<(), Memory>
    ensures ok { OnOk result (objects.new ≡ opened_objects types.now formals.now values.now ++ objects.old) }
    ensures err { OnErr result (objects.new ≡ objects.old) }
{
    for done in 0..formals.len() {
        let place = formals.len() - 1 - done;
        let formal = formals[place];
        let value = value_or_lower(types, formal, values.get(place));
        match open_formal(objects, formal, value) {
            Ok(()) => {}
            Err(_) => {
                objects.leave(done);
                return Err(Memory);
            }
        }
    }
    Ok(())
}
