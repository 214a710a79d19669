// What the names in an expression of a task mean.

ghost use Rattle.std.specs.Prelude.{◌≡◌};

use crate::store::Objects;
use crate::type_names::TypeNames;
use ada_tree::{NameId, Types};
use ada_value::{Limits, NameValues, Raised, Value};

/// The variables of a task and the names of its program's types: what an expression of the task is evaluated on.
pub struct TaskScope<'a> {
    pub objects: &'a Objects,
    pub names: &'a TypeNames<'a>,
}

impl<'a> NameValues for TaskScope<'a> {
    ghost table = { λ s. s.names.now };

    ghost vars = { λ s. s.objects.now };

    fn types(&self) -> &Types {
        self.names.types()
    }

    fn value(&self, name: NameId) -> Value {
        match self.objects.named(name) {
            Some(variable) => variable.value(0),
            None => self.names.fixed_value(name),
        }
    }

    fn component(&self, name: NameId, index: Value) -> Result<Value, Raised> {
        match self.objects.named(name) {
            Some(variable) => match variable.component_place(index) {
                Ok(place) => Ok(variable.value(place)),
                Err(raised) => Err(raised),
            },
            None => Err(Raised::Constraint),
        }
    }

    fn limits(&self, mark: NameId) -> Limits {
        self.names.limits_named(mark)
    }
}
