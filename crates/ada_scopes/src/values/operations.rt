// The operations on the values of static expressions (4.5). Values of BOOLEAN and of enumerations are positions, so that FALSE is 0 and TRUE is 1.

ghost use Rattle.std.specs.Prelude.{◌≡◌, ◌+ℤ◌, ◌-ℤ◌, ◌*ℤ◌, neg_ℤ, int_div, Ok};
ghost use Rattle.ada_static_rules.specs.StaticValue.{fitted, truth, unless_zero, applied, signed};
ghost use Rattle.common_lemmas.specs.division.Modulus.{modulus};

use ada_tree::{BinaryOp, Span, UnaryOp};
use common_lemmas::division::{modulus, remainder};

const LEAST: i64 = -2147483648;

const GREATEST: i64 = 2147483647;

// A value of INTEGER, or the place of the operation, which raises.
fn fit(value: i64, span: Span) -> Result<i64, Span>
    ensures { result ≡ fitted span value }
{
    if value >= LEAST && value <= GREATEST {
        Ok(value)
    } else {
        Err(span)
    }
}

// The position of a truth value.
pub fn position_of(holds: bool) -> i64
    ensures { result ≡ truth holds }
{
    if holds { 1 } else { 0 }
}

fn sum(left: i64, right: i64, span: Span) -> Result<i64, Span>
    ensures { result ≡ fitted span (left +ℤ right) }
{
    match left.checked_add(right) {
        Some(value) => fit(value, span),
        None => Err(span),
    }
}

fn difference(left: i64, right: i64, span: Span) -> Result<i64, Span>
    ensures { result ≡ fitted span (left -ℤ right) }
{
    match left.checked_sub(right) {
        Some(value) => fit(value, span),
        None => Err(span),
    }
}

fn product(left: i64, right: i64, span: Span) -> Result<i64, Span>
    ensures { result ≡ fitted span (left *ℤ right) }
{
    match left.checked_mul(right) {
        Some(value) => fit(value, span),
        None => Err(span),
    }
}

fn quotient(left: i64, right: i64, span: Span) -> Result<i64, Span>
    ensures { result ≡ unless_zero span right (fitted span (int_div left right)) }
{
    if right == 0 {
        return Err(span);
    }
    match left.checked_div(right) {
        Some(value) => fit(value, span),
        None => Err(span),
    }
}

fn negated(value: i64, span: Span) -> Result<i64, Span>
    ensures { result ≡ fitted span (neg_ℤ value) }
{
    match value.checked_neg() {
        Some(value) => fit(value, span),
        None => Err(span),
    }
}

/// The result of an operator at a place, of the values of its operands.
pub fn apply(op: BinaryOp, span: Span, left: i64, right: i64) -> Result<i64, Span>
    ensures { result ≡ applied op span left right }
{
    match op {
        BinaryOp::And | BinaryOp::AndThen => Ok(position_of(left != 0 && right != 0)),
        BinaryOp::Or | BinaryOp::OrElse => Ok(position_of(left != 0 || right != 0)),
        BinaryOp::Xor => Ok(position_of(left != right)),
        BinaryOp::Equal => Ok(position_of(left == right)),
        BinaryOp::NotEqual => Ok(position_of(left != right)),
        BinaryOp::Less => Ok(position_of(left < right)),
        BinaryOp::LessEqual => Ok(position_of(left <= right)),
        BinaryOp::Greater => Ok(position_of(left > right)),
        BinaryOp::GreaterEqual => Ok(position_of(left >= right)),
        BinaryOp::Plus => sum(left, right, span),
        BinaryOp::Minus => difference(left, right, span),
        BinaryOp::Times => product(left, right, span),
        BinaryOp::Divide => quotient(left, right, span),
        BinaryOp::Mod | BinaryOp::Rem => {
            if right == 0 {
                return Err(span);
            }
            if op == BinaryOp::Mod {
                Ok(modulus(left, right))
            } else {
                Ok(remainder(left, right))
            }
        }
    }
}

/// The result of a unary operator at a place.
pub fn apply_one(op: UnaryOp, span: Span, value: i64) -> Result<i64, Span>
    ensures { result ≡ signed op span value }
{
    match op {
        UnaryOp::Plus => Ok(value),
        UnaryOp::Minus => negated(value, span),
        UnaryOp::Abs => {
            if value < 0 {
                negated(value, span)
            } else {
                fit(value, span)
            }
        }
        UnaryOp::Not => Ok(position_of(value == 0)),
    }
}
