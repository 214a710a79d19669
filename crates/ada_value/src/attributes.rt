// The attributes of scalar types and subtypes (3.5.5).

ghost use Rattle.std.specs.Prelude.{◌≡◌};
ghost use Rattle.ada_tree.specs.Attributes.{attribute_of};
ghost use Rattle.ada_value.specs.Values.{and_then};
ghost use Rattle.ada_value.specs.Evaluating.{bound_value, attribute_value};

use crate::operators::fitted;
use crate::subtypes::{based, position_of, value_at};
use crate::{Limits, Raised, Value};
use ada_tree::{NameId, Types};

// A bound of a subtype; of a word that is none it is 0.
pub(crate) fn bound_value(types: &Types, limits: Limits, word: NameId) -> Value
    ensures { result ≡ bound_value types.now limits (attribute_of word) }
{
    if word == NameId::FIRST {
        value_at(types, limits.kind, limits.first)
    } else if word == NameId::LAST {
        value_at(types, limits.kind, limits.last)
    } else {
        Value::Number(0)
    }
}

// An attribute of a value; of a word that is none it is 0.
fn attribute_value(
    types: &Types,
    limits: Limits,
    word: NameId,
    value: Value,
) -> Result<Value, Raised>
    ensures { result ≡ attribute_value types.now limits (attribute_of word) value }
{
    let position = position_of(value);
    if word == NameId::POS {
        fitted(position)
    } else if word == NameId::VAL {
        based(types, limits.kind, position as i128)
    } else if word == NameId::SUCC {
        based(types, limits.kind, position as i128 + 1)
    } else if word == NameId::PRED {
        based(types, limits.kind, position as i128 - 1)
    } else {
        Ok(Value::Number(0))
    }
}

// An attribute of what its argument comes to.
pub(crate) fn attribute(
    types: &Types,
    limits: Limits,
    word: NameId,
    argument: Result<Value, Raised>,
) -> Result<Value, Raised>
    ensures { result ≡ and_then argument (λ v. attribute_value types.now limits (attribute_of word) v) }
{
    match argument {
        Ok(value) => attribute_value(types, limits, word, value),
        Err(raised) => Err(raised),
    }
}
