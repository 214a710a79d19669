// What names mean that are no variables: literals, named numbers, constants, types and subtypes (3.2, 3.3, 3.5.1).

ghost use Rattle.std.specs.Prelude.{◌≡◌, ◌==◌, ◌<◌, ◌^◌, pos, position, option_map, IfSome};
ghost use Rattle.ada_static_rules.specs.StaticValue.{mark_named, constant_named, position_in};
ghost use Rattle.ada_value.specs.Values.{placed, word, limits_named};
ghost use Rattle.ada_value.specs.Evaluating.{literal_value, constant_value, fixed_value};

use crate::subtypes::{integer_limits, limits_at, limits_of, value_at, word};
use crate::{Limits, Value};
use ada_tree::{Constant, Kind, Mark, NameId, Types};

// The type or subtype of a name.
fn mark_named(types: &Types, name: NameId) -> Option<Mark>
    ensures { result ≡ mark_named types.now name }
{
    for mark in &types.marks {
        if let Some(other) = mark.name {
            if other.0 == name.0 {
                return Some(*mark);
            }
        }
    }
    None
}

/// The subtype of a name; of a name that is no mark it is INTEGER. It goes through all marks.
pub fn limits_named(types: &Types, name: NameId) -> Limits
    ensures { result ≡ limits_named types.now name }
{
    match mark_named(types, name) {
        Some(mark) => limits_of(mark),
        None => integer_limits(),
    }
}

// The named number or constant of a name.
fn constant_named(types: &Types, name: NameId) -> Option<Constant>
    ensures { result ≡ constant_named types.now name }
{
    for constant in &types.constants {
        if constant.name.0 == name.0 {
            return Some(*constant);
        }
    }
    None
}

// The position of a name among others.
fn place_among(names: &[NameId], name: NameId) -> Option<usize>
    ensures place { result ≡ position (λ n. n.0 == name.0) names.now }
    ensures fits { IfSome result (λ k. k < 2 ^ 63) }
{
    names.iter().position(|other| other.0 == name.0)
}

// The position of a literal in its enumeration.
fn position_in(kind: &Kind, name: NameId) -> Option<usize>
    ensures place { result ≡ position_in name kind.now }
    ensures fits { IfSome result (λ k. k < 2 ^ 63) }
{
    match kind {
        Kind::Enumeration { literals } => place_among(literals.as_slice(), name),
        _ => None,
    }
}

// The value of a literal of the kind at that place.
fn literal_of(kind: &Kind, place: usize, name: NameId) -> Option<Value>
    ensures { result ≡ option_map (λ n. placed (word place) (pos n)) (position_in name kind.now) }
{
    match position_in(kind, name) {
        Some(position) => Some(Value::Place {
            kind: word(place as u64),
            pos: word(position as u64),
        }),
        None => None,
    }
}

// The value of an enumeration literal.
#[tactic(auto, using(crate::proofs::Lookups::literal_there))]
fn literal_value(types: &Types, name: NameId) -> Option<Value>
    ensures { result ≡ literal_value types.now.kinds 0 name }
{
    for place in 0..types.kinds.len() {
        if let Some(value) = literal_of(&types.kinds[place], place, name) {
            return Some(value);
        }
    }
    None
}

/// The value of a named number or constant of the main procedure (3.2).
pub fn constant_value(types: &Types, constant: Constant) -> Value
    ensures { result ≡ constant_value types.now constant }
{
    value_at(
        types,
        limits_at(types, constant.mark).kind,
        constant.value as i64,
    )
}

/// The value of a name that is no variable: of FALSE or TRUE, of a named number or constant, or of an enumeration literal; of another name it is 0. It goes through all of them.
pub fn fixed_value(types: &Types, name: NameId) -> Value
    ensures { result ≡ fixed_value types.now name }
{
    if name == NameId::FALSE || name == NameId::TRUE {
        return Value::Truth(name == NameId::TRUE);
    }
    if let Some(constant) = constant_named(types, name) {
        return constant_value(types, constant);
    }
    match literal_value(types, name) {
        Some(value) => value,
        None => Value::Number(0),
    }
}
