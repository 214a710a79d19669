// The value of an expression on variables that are handed in as scopes.

ghost use Rattle.std.specs.Prelude.{◌≡◌, pos, option_map, option_copied, slice_index_or};
ghost use Rattle.ada_tree.specs.PlainExpr.{plain_expr};
ghost use Rattle.ada_value.specs.Evaluating.{name_value, component_value, evaluated};
ghost use Rattle.ada_value.specs.inner.Bindings.{object_bound, plain_vars};
ghost use Rattle.ada_value.specs.declared.values.Value.TheVariants.{Number};

use crate::evaluating::evaluate;
use crate::fixed::{fixed_value, limits_named};
use crate::subtypes::{form_at, place_among};
use crate::{Binding, Limits, NameValues, Raised, Value, Vars};
use ada_tree::{Expr, NameId, Types};

// The value at a place; past the end it is 0.
fn value_there(values: &[Value], place: u64) -> Value
    ensures { result ≡ slice_index_or values.now place (Number (pos 0)) }
{
    match values.get(place as usize) {
        Some(value) => *value,
        None => Value::Number(0),
    }
}

// The value of a name for which a binding may have been found.
fn value_of(found: Option<&Binding>, types: &Types, name: NameId) -> Value
    ensures { result ≡ name_value types.now (option_map (object_bound types.now) (option_copied found.entry)) name }
{
    match found {
        Some(binding) => value_there(&binding.values, 0),
        None => fixed_value(types, name),
    }
}

// The component at an index value of what a name is bound to.
fn component_of(found: Option<&Binding>, types: &Types, index: Value) -> Result<Value, Raised>
    ensures { result ≡ component_value (option_map (object_bound types.now) (option_copied found.entry)) index }
{
    match found {
        Some(binding) => match place_among(form_at(types, binding.mark).index, index) {
            Ok(place) => Ok(value_there(&binding.values, place)),
            Err(raised) => Err(raised),
        },
        None => Err(Raised::Constraint),
    }
}

// Names that mean what scopes bind, and else what a table of types says.
#[derive(Drop)]
struct ScopedNames<'a> {
    scopes: &'a Vars,
    declared: &'a Types,
}

impl NameValues for ScopedNames<'_> {
    ghost table = { λ names. names.declared.now };

    ghost vars = { λ names. plain_vars names.declared.now names.scopes.now };

    fn types(&self) -> &Types {
        self.declared
    }

    fn value(&self, name: NameId) -> Value {
        value_of(self.scopes.latest(name), self.declared, name)
    }

    fn component(&self, name: NameId, index: Value) -> Result<Value, Raised> {
        component_of(self.scopes.latest(name), self.declared, index)
    }

    fn limits(&self, mark: NameId) -> Limits {
        limits_named(self.declared, mark)
    }
}

/// The value of an expression on these variables and types, or the exception that its evaluation raises, exactly as the operators and subtypes give it (4.1 to 4.5, 3.5.5). It takes no memory. Nothing is asked of the expression, the variables or the table: a name that is no value is worth 0, a number that INTEGER lacks raises NUMERIC_ERROR, and what is no array has no index in range.
pub fn eval(e: &Expr, vars: &Vars, types: &Types) -> Result<Value, Raised>
    ensures { result ≡ evaluated types.now (plain_vars types.now vars.now) (plain_expr e.now) }
{
    let names = ScopedNames {
        scopes: vars,
        declared: types,
    };
    evaluate(e, &names)
}
