// What names mean where no variable is seen.

ghost use Rattle.std.specs.Prelude.{◌≡◌};

use crate::type_names::TypeNames;
use ada_tree::{NameId, Types};
use ada_value::{Limits, NameValues, Raised, Value};

/// The names of a program's types without any variables: what a static expression is evaluated on (4.9).
#[derive(Clone, Copy)]
pub struct StaticNames<'a> {
    pub names: &'a TypeNames<'a>,
}

impl<'a> NameValues for StaticNames<'a> {
    ghost use Rattle.std.specs.Prelude.{[]};

    ghost table = { λ s. s.names.now };

    ghost vars = { λ _. [] };

    fn types(&self) -> &Types {
        self.names.types()
    }

    fn value(&self, name: NameId) -> Value {
        self.names.fixed_value(name)
    }

    fn component(&self, _name: NameId, _index: Value) -> Result<Value, Raised> {
        Err(Raised::Constraint)
    }

    fn limits(&self, mark: NameId) -> Limits {
        self.names.limits_named(mark)
    }
}
