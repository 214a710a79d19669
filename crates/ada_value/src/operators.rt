// The operators, at the values of their operands (4.5).

ghost use Rattle.std.specs.Prelude.{◌≡◌, ◌+ℤ◌, ◌-ℤ◌, ◌*ℤ◌, neg_ℤ, int_div, if◌then◌else◌};
ghost use Rattle.common_lemmas.specs.division.Modulus.{modulus};
ghost use Rattle.ada_value.specs.Values.{and_then, fitted};
ghost use Rattle.ada_value.specs.Evaluating.{unless_zero, combined, signed_value};

use crate::subtypes::{is_true, position_of};
use crate::{Raised, Value};
use ada_tree::{BinaryOp, UnaryOp};
use common_lemmas::division::{modulus, remainder};

const LEAST: i64 = -2147483648;

const GREATEST: i64 = 2147483647;

// The number that an operation gives; one that INTEGER lacks raises NUMERIC_ERROR (4.5, 11.1).
pub(crate) fn fitted(number: i64) -> Result<Value, Raised>
    ensures { result ≡ fitted number }
{
    if number >= LEAST && number <= GREATEST {
        Ok(Value::Number(number as i32))
    } else {
        Err(Raised::Numeric)
    }
}

fn sum(left: i64, right: i64) -> Result<Value, Raised>
    ensures { result ≡ fitted (left +ℤ right) }
{
    match left.checked_add(right) {
        Some(number) => fitted(number),
        None => Err(Raised::Numeric),
    }
}

fn difference(left: i64, right: i64) -> Result<Value, Raised>
    ensures { result ≡ fitted (left -ℤ right) }
{
    match left.checked_sub(right) {
        Some(number) => fitted(number),
        None => Err(Raised::Numeric),
    }
}

fn product(left: i64, right: i64) -> Result<Value, Raised>
    ensures { result ≡ fitted (left *ℤ right) }
{
    match left.checked_mul(right) {
        Some(number) => fitted(number),
        None => Err(Raised::Numeric),
    }
}

// The quotient, truncated toward zero (4.5.5).
fn quotient(left: i64, right: i64) -> Result<Value, Raised>
    ensures { result ≡ unless_zero right (fitted (int_div left right)) }
{
    if right == 0 {
        return Err(Raised::Numeric);
    }
    match left.checked_div(right) {
        Some(number) => fitted(number),
        None => Err(Raised::Numeric),
    }
}

fn negated(number: i64) -> Result<Value, Raised>
    ensures { result ≡ fitted (neg_ℤ number) }
{
    match number.checked_neg() {
        Some(number) => fitted(number),
        None => Err(Raised::Numeric),
    }
}

// An operator at the values of both its operands.
pub(crate) fn combined(op: BinaryOp, left: Value, right: Value) -> Result<Value, Raised>
    ensures { result ≡ combined op left right }
{
    let a = position_of(left);
    let b = position_of(right);
    match op {
        BinaryOp::And | BinaryOp::AndThen => Ok(Value::Truth(is_true(left) && is_true(right))),
        BinaryOp::Or | BinaryOp::OrElse => Ok(Value::Truth(is_true(left) || is_true(right))),
        BinaryOp::Xor => Ok(Value::Truth(a != b)),
        BinaryOp::Equal => Ok(Value::Truth(a == b)),
        BinaryOp::NotEqual => Ok(Value::Truth(a != b)),
        BinaryOp::Less => Ok(Value::Truth(a < b)),
        BinaryOp::LessEqual => Ok(Value::Truth(a <= b)),
        BinaryOp::Greater => Ok(Value::Truth(a > b)),
        BinaryOp::GreaterEqual => Ok(Value::Truth(a >= b)),
        BinaryOp::Plus => sum(a, b),
        BinaryOp::Minus => difference(a, b),
        BinaryOp::Times => product(a, b),
        BinaryOp::Divide => quotient(a, b),
        BinaryOp::Mod | BinaryOp::Rem => {
            if b == 0 {
                return Err(Raised::Numeric);
            }
            if op == BinaryOp::Mod {
                fitted(modulus(a, b))
            } else {
                fitted(remainder(a, b))
            }
        }
    }
}

// `+`, `-`, `abs` or `not` at the value of its operand.
fn signed_value(op: UnaryOp, value: Value) -> Result<Value, Raised>
    ensures { result ≡ signed_value op value }
{
    let number = position_of(value);
    match op {
        UnaryOp::Plus => fitted(number),
        UnaryOp::Minus => negated(number),
        UnaryOp::Abs => {
            if number < 0 {
                negated(number)
            } else {
                fitted(number)
            }
        }
        UnaryOp::Not => Ok(Value::Truth(!is_true(value))),
    }
}

// `+`, `-`, `abs` or `not` over what its operand comes to.
pub(crate) fn signed(op: UnaryOp, operand: Result<Value, Raised>) -> Result<Value, Raised>
    ensures { result ≡ and_then operand (λ v. signed_value op v) }
{
    match operand {
        Ok(value) => signed_value(op, value),
        Err(raised) => Err(raised),
    }
}
