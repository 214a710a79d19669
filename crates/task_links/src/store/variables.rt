// One variable as it is read.

ghost use Rattle.std.specs.Prelude.{◌≡◌, Some};
ghost use Rattle.ada_value.specs.Variables.{checked_for, component_place, value_there};
ghost use Rattle.task_links.specs.store.Plain.{plain_variable};

use ada_tree::NameId;
use ada_value::{Form, Raised, Value, checked, place_among};

/// A variable: its name, what it is, and its values, one or one for each index in order.
#[derive(Clone, Copy)]
pub struct Variable<'a> {
    pub name: NameId,
    pub form: Form,
    pub values: &'a [Value],
}

impl<'a> Variable<'a> {
    /// The value at a place, from 0; past the end it is 0.
    pub fn value(&self, place: usize) -> Value
        ensures { result ≡ value_there (plain_variable self.now) place }
    {
        match self.values.get(place) {
            Some(value) => *value,
            None => Value::Number(0),
        }
    }

    /// The place of the component at an index value, from 0; outside the array's range, and where the variable is no array, CONSTRAINT_ERROR (4.1.1).
    pub fn component_place(&self, index: Value) -> Result<usize, Raised>
        ensures { result ≡ component_place (Some (plain_variable self.now)) index }
    {
        match place_among(self.form.index, index) {
            Ok(place) => Ok(place as usize),
            Err(raised) => Err(raised),
        }
    }

    /// A value as it is assigned to the variable or its components; outside the subtype CONSTRAINT_ERROR (5.2).
    pub fn checked(&self, value: Value) -> Result<Value, Raised>
        ensures { result ≡ checked_for (Some (plain_variable self.now)) value }
    {
        checked(self.form.limits, value)
    }
}
