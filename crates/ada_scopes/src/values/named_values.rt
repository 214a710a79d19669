// What names mean in the table of types.

ghost use Rattle.std.specs.Prelude.{◌≡◌, ◌==◌, ◌<◌, ◌^◌, position, IfSome};
ghost use Rattle.ada_static_rules.specs.StaticValue.{mark_named, constant_named, position_in, literal_position, value_named};

use crate::values::operations::position_of;
use ada_tree::{Constant, Kind, Mark, NameId, Types};

/// The type or subtype of a name.
pub fn mark_of(types: &Types, id: NameId) -> Option<Mark>
    ensures { result ≡ mark_named types.now id }
{
    for mark in &types.marks {
        if let Some(name) = mark.name {
            if name.0 == id.0 {
                return Some(*mark);
            }
        }
    }
    None
}

// The named number or constant of a name.
fn constant_of(types: &Types, id: NameId) -> Option<Constant>
    ensures { result ≡ constant_named types.now id }
{
    for constant in &types.constants {
        if constant.name.0 == id.0 {
            return Some(*constant);
        }
    }
    None
}

// The position of a name among others.
fn place_among(names: &[NameId], id: NameId) -> Option<usize>
    ensures place { result ≡ position (λ n. n.0 == id.0) names.now }
    ensures fits { IfSome result (λ k. k < 2 ^ 63) }
{
    names.iter().position(|name| name.0 == id.0)
}

// The position of a literal in its enumeration.
fn place_in(kind: &Kind, id: NameId) -> Option<usize>
    ensures place { result ≡ position_in id kind.now }
    ensures fits { IfSome result (λ k. k < 2 ^ 63) }
{
    match kind {
        Kind::Enumeration { literals } => place_among(literals.as_slice(), id),
        _ => None,
    }
}

fn literal_place(types: &Types, id: NameId) -> Option<usize>
    ensures place { result ≡ literal_position types.now.kinds id }
    ensures fits { IfSome result (λ k. k < 2 ^ 63) }
{
    for kind in &types.kinds {
        if let Some(place) = place_in(kind, id) {
            return Some(place);
        }
    }
    None
}

/// The value that a name stands for: that of FALSE or TRUE, of a named number or constant, or of an enumeration literal.
pub(crate) fn value_of_name(types: &Types, id: NameId) -> Option<i64>
    ensures { result ≡ value_named types.now id }
{
    if id == NameId::FALSE || id == NameId::TRUE {
        return Some(position_of(id == NameId::TRUE));
    }
    if let Some(constant) = constant_of(types, id) {
        return Some(constant.value as i64);
    }
    match literal_place(types, id) {
        Some(place) => Some(place as i64),
        None => None,
    }
}
