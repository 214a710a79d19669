// Values and positions, and the subtypes in which they lie (3.3, 3.5).

ghost use Rattle.std.specs.Prelude.{◌≡◌, ◌==◌, pos, Some, None, slice_get, FitsSigned};
ghost use Rattle.std.specs.Bool.{OnTrue};
ghost use Rattle.std.specs.Int.{w64};
ghost use Rattle.ada_static_rules.specs.Scope.{mark_at};
ghost use Rattle.ada_static_rules.specs.StaticValue.{is_of_kind};
ghost use Rattle.ada_value.specs.Values.{position_of, is_true_value, number, word, placed, value_at, based, limits_of, limits_or, integer_limits, truth_limits, limits_of_kind, lies_in, is_empty_range, lower_bound, checked, place_in};
ghost use Rattle.ada_value.specs.Variables.{form_of_kind, form_of_mark, place_among};
ghost use Rattle.ada_value.specs.inner.Bindings.{form_or};

use crate::{Form, Limits, Raised, Value};
use ada_tree::{Kind, Mark, Types};

/// The position of a value: of a number itself, of FALSE and TRUE 0 and 1, of an enumeration literal its place from 0 (3.5.5).
pub fn position_of(value: Value) -> i64
    ensures { result ≡ position_of value }
{
    match value {
        Value::Number(number) => number as i64,
        Value::Truth(holds) => { if holds { 1 } else { 0 } }
        Value::Place { pos: place, .. } => place as i64,
    }
}

/// Whether a condition of that value holds: whether it is TRUE (5.3).
pub fn is_true(value: Value) -> bool
    ensures { result ≡ is_true_value value }
{
    position_of(value) != 0
}

// A number of INTEGER; one that INTEGER lacks is 0.
fn number(position: i64) -> Value
    ensures { result ≡ number position }
{
    if position >= -2147483648 && position <= 2147483647 {
        Value::Number(position as i32)
    } else {
        Value::Number(0)
    }
}

/// A place or position as 32 bits; one that has more is 0.
pub fn word(place: u64) -> u32
    ensures { result ≡ word place }
{
    if place <= 4294967295 { place as u32 } else { 0 }
}

// The value of an enumeration at a position; a negative one is 0.
fn placed(kind: u32, position: i64) -> Value
    ensures { result ≡ placed kind position }
{
    if position < 0 {
        Value::Place { kind, pos: 0 }
    } else {
        Value::Place {
            kind,
            pos: word(position as u64),
        }
    }
}

/// The value at a position of the kind at that place of the table; where the kind has none there it is 0, or TRUE in place of a position that is not 0.
pub fn value_at(types: &Types, kind: u32, position: i64) -> Value
    ensures { result ≡ value_at types.now kind position }
{
    match types.kinds.get(kind as usize) {
        Some(Kind::Truth) => Value::Truth(position != 0),
        Some(Kind::Enumeration { .. }) => placed(kind, position),
        Some(Kind::Integer) => number(position),
        Some(Kind::Array { .. }) => number(position),
        None => number(position),
    }
}

// Whether a kind has a value at a position.
fn is_of_kind(types: &Types, kind: u32, position: i128) -> bool
    ensures test { result ≡ is_of_kind (slice_get types.now.kinds kind) position }
    ensures fits { OnTrue result (FitsSigned w64 position) }
{
    match types.kinds.get(kind as usize) {
        Some(Kind::Integer) => position >= -2147483648 && position <= 2147483647,
        Some(Kind::Truth) => position >= 0 && position <= 1,
        Some(Kind::Enumeration { literals }) => {
            position >= 0 && position < literals.as_slice().len() as i128
        }
        _ => false,
    }
}

// The value of a kind at a position; where the kind has none there CONSTRAINT_ERROR is raised (3.5.5).
pub(crate) fn based(types: &Types, kind: u32, position: i128) -> Result<Value, Raised>
    ensures { result ≡ based types.now kind position }
{
    if is_of_kind(types, kind, position) {
        Ok(value_at(types, kind, position as i64))
    } else {
        Err(Raised::Constraint)
    }
}

/// The subtype INTEGER (3.5.4).
pub fn integer_limits() -> Limits
    ensures { result ≡ integer_limits }
{
    Limits {
        kind: 0,
        first: -2147483648,
        last: 2147483647,
    }
}

/// The subtype BOOLEAN (3.5.3).
pub fn truth_limits() -> Limits
    ensures { result ≡ truth_limits }
{
    Limits {
        kind: 1,
        first: 0,
        last: 1,
    }
}

/// The subtype of a mark.
pub fn limits_of(mark: Mark) -> Limits
    ensures { result ≡ limits_of mark }
{
    Limits {
        kind: mark.kind,
        first: mark.first as i64,
        last: mark.last as i64,
    }
}

// The subtype of the mark at a place of the table; where there is none it is INTEGER.
pub(crate) fn limits_at(types: &Types, place: u32) -> Limits
    ensures { result ≡ limits_or (mark_at types.now place) }
{
    match types.marks.get(place as usize) {
        Some(mark) => limits_of(*mark),
        None => integer_limits(),
    }
}

/// The subtype of all values of a kind, which is that of its first mark; without a mark it is INTEGER.
pub fn limits_of_kind(types: &Types, kind: u32) -> Limits
    ensures { result ≡ limits_of_kind types.now kind }
{
    for mark in &types.marks {
        if mark.kind == kind {
            return limits_of(*mark);
        }
    }
    integer_limits()
}

/// Whether a position lies between the bounds.
pub fn lies_in(limits: Limits, position: i64) -> bool
    ensures { result ≡ lies_in limits position }
{
    limits.first <= position && position <= limits.last
}

/// Whether no position lies between the bounds.
pub fn is_empty_range(limits: Limits) -> bool
    ensures { result ≡ is_empty_range limits }
{
    limits.last < limits.first
}

/// The lower bound of a subtype, as a value.
pub fn lower(types: &Types, limits: Limits) -> Value
    ensures { result ≡ lower_bound types.now limits }
{
    value_at(types, limits.kind, limits.first)
}

/// A value as it goes to a variable or formal of a subtype; outside it CONSTRAINT_ERROR is raised (3.3, 5.2, 6.4.1).
pub fn checked(limits: Limits, value: Value) -> Result<Value, Raised>
    ensures { result ≡ checked limits value }
{
    if lies_in(limits, position_of(value)) {
        Ok(value)
    } else {
        Err(Raised::Constraint)
    }
}

/// The place of an index value in an index range, counted from 0; outside it CONSTRAINT_ERROR is raised (4.1.1).
pub fn place_in(limits: Limits, position: i64) -> Result<u64, Raised>
    ensures { result ≡ place_in limits position }
{
    if limits.first <= position && position <= limits.last {
        Ok((position as i128 - limits.first as i128) as u64)
    } else {
        Err(Raised::Constraint)
    }
}

/// The place of an index value in the index range of what may be no array, which has no index value in range (4.1.1).
pub fn place_among(index: Option<Limits>, value: Value) -> Result<u64, Raised>
    ensures { result ≡ place_among index value }
{
    match index {
        Some(limits) => place_in(limits, position_of(value)),
        None => Err(Raised::Constraint),
    }
}

// What an object of a mark is that is no array.
fn scalar_form(mark: Mark) -> Form
    ensures { result ≡ record { limits = limits_of mark; index = None } }
{
    Form {
        limits: limits_of(mark),
        index: None,
    }
}

// What an object of a mark of that kind is.
fn form_of_kind(types: &Types, mark: Mark, kind: &Kind) -> Form
    ensures { result ≡ form_of_kind types.now mark (Some kind.now) }
{
    match kind {
        Kind::Array {
            index,
            first,
            last,
            part,
        } => Form {
            limits: limits_at(types, *part),
            index: Some(Limits {
                kind: *index,
                first: *first as i64,
                last: *last as i64,
            }),
        },
        Kind::Integer => scalar_form(mark),
        Kind::Truth => scalar_form(mark),
        Kind::Enumeration { .. } => scalar_form(mark),
    }
}

/// What an object of a mark is: of an array type it has components, and of any other it is scalar (3.3, 3.6).
pub fn form_of_mark(types: &Types, mark: Mark) -> Form
    ensures { result ≡ form_of_mark types.now mark }
{
    match types.kinds.get(mark.kind as usize) {
        Some(kind) => form_of_kind(types, mark, kind),
        None => scalar_form(mark),
    }
}

// What an object of the mark at a place of the table is; where there is none it is scalar and of INTEGER.
pub(crate) fn form_at(types: &Types, place: u32) -> Form
    ensures { result ≡ form_or types.now (mark_at types.now place) }
{
    match types.marks.get(place as usize) {
        Some(mark) => form_of_mark(types, *mark),
        None => Form {
            limits: integer_limits(),
            index: None,
        },
    }
}
