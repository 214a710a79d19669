//! What the names in an expression mean.

ghost use Rattle.std.specs.Prelude.{◌≡◌};
ghost use Rattle.ada_value.specs.Values.{limits_named};
ghost use Rattle.ada_value.specs.Variables.{object_named};
ghost use Rattle.ada_value.specs.Evaluating.{name_value, component_value};

use crate::{Limits, Raised, Value};
use ada_tree::{NameId, Types};

/// What the names in an expression mean: the variables and the table of types on which it is evaluated. The ghost members `table` and `vars` are that table and those variables, the innermost and latest first. No call takes memory.
pub trait NameValues {
    ghost use Rattle.ada_tree.specs.TypeTable.{TypeTable};
    ghost use Rattle.ada_value.specs.Variables.{Variables};

    ghost table: { Self → TypeTable };

    ghost vars: { Self → Variables };

    /// The table of types.
    fn types(&self) -> &Types
        ensures { result.now ≡ table self.now };

    /// The value of a name: that of the latest variable of the name, and else that of the constant or literal (4.1, 8.3). Of another name it is 0.
    fn value(&self, name: NameId) -> Value
        ensures { result ≡ name_value (table self.now) (object_named (vars self.now) name) name };

    /// The value of the component of an array at an index value; an index outside its range raises CONSTRAINT_ERROR, and so does what is no array (4.1.1).
    fn component(&self, name: NameId, index: Value) -> Result<Value, Raised>
        ensures { result ≡ component_value (object_named (vars self.now) name) index };

    /// The subtype of a name; of a name that is no mark it is INTEGER.
    fn limits(&self, mark: NameId) -> Limits
        ensures { result ≡ limits_named (table self.now) mark };
}
