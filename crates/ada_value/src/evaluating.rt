// What expressions and ranges are worth (3.5, 3.6, 4.1 to 4.5). No call takes memory.

ghost use Rattle.std.specs.Prelude.{◌≡◌, option_map};
ghost use Rattle.ada_tree.specs.PlainExpr.{plain_expr, plain_bounds, plain_drange};
ghost use Rattle.ada_value.specs.Values.{kind_of_value};
ghost use Rattle.ada_value.specs.Evaluating.{evaluated, condition_of, range_between, bounds_of, narrowed, range_of};

use crate::attributes::{attribute, bound_value};
use crate::operators::{combined, fitted, signed};
use crate::subtypes::{is_true, position_of};
use crate::{Limits, NameValues, Raised, Value};
use ada_tree::{BinaryOp, Bounds, Drange, Expr, ExprKind};

/// The value of an expression, or the exception that its evaluation raises (4.1 to 4.5, 3.5.5): operands from left to right, the right one of a short-circuit form only where the left one does not decide.
pub fn evaluate<N: NameValues>(e: &Expr, names: &N) -> Result<Value, Raised>
    ensures { result ≡ evaluated (N.table names.now) (N.vars names.now) (plain_expr e.now) }
{
    match &e.kind {
        ExprKind::Integer(n) => fitted(*n as i64),
        ExprKind::Name(name) => Ok(names.value(*name)),
        ExprKind::Index { name, arg } => match evaluate(arg, names) {
            Ok(index) => names.component(name.name, index),
            Err(raised) => Err(raised),
        },
        ExprKind::Attribute { mark, word, arg } => match arg {
            None => Ok(bound_value(names.types(), names.limits(mark.name), word.name)),
            Some(part) => attribute(
                names.types(),
                names.limits(mark.name),
                word.name,
                evaluate(part, names),
            ),
        },
        ExprKind::Paren(part) => evaluate(part, names),
        ExprKind::Unary { op, part } => signed(*op, evaluate(part, names)),
        ExprKind::Binary { op, left, right } => match evaluate(left, names) {
            Ok(value) => {
                if *op == BinaryOp::AndThen && !is_true(value) {
                    return Ok(Value::Truth(false));
                }
                if *op == BinaryOp::OrElse && is_true(value) {
                    return Ok(Value::Truth(true));
                }
                match evaluate(right, names) {
                    Ok(other) => {
                        if *op == BinaryOp::AndThen || *op == BinaryOp::OrElse {
                            Ok(other)
                        } else {
                            combined(*op, value, other)
                        }
                    }
                    Err(raised) => Err(raised),
                }
            }
            Err(raised) => Err(raised),
        },
    }
}

/// Whether a condition holds, or the exception that its evaluation raises (5.3).
pub fn condition<N: NameValues>(e: &Expr, names: &N) -> Result<bool, Raised>
    ensures { result ≡ condition_of (N.table names.now) (N.vars names.now) (plain_expr e.now) }
{
    match evaluate(e, names) {
        Ok(value) => Ok(is_true(value)),
        Err(raised) => Err(raised),
    }
}

// The kind of a value, by its place in the table.
fn kind_of_value(value: Value) -> u32
    ensures { result ≡ kind_of_value value }
{
    match value {
        Value::Number(_) => 0,
        Value::Truth(_) => 1,
        Value::Place { kind, .. } => kind,
    }
}

// The range between two values.
fn range_between(first: Value, last: Value) -> Limits
    ensures { result ≡ range_between first last }
{
    Limits {
        kind: kind_of_value(first),
        first: position_of(first),
        last: position_of(last),
    }
}

/// The range between two bounds, the first one evaluated first, or the exception that is raised (3.5).
pub fn bounds<N: NameValues>(bounds: &Bounds, names: &N) -> Result<Limits, Raised>
    ensures { result ≡ bounds_of (N.table names.now) (N.vars names.now) (plain_bounds bounds.now) }
{
    match evaluate(&bounds.first, names) {
        Ok(first) => match evaluate(&bounds.last, names) {
            Ok(last) => Ok(range_between(first, last)),
            Err(raised) => Err(raised),
        },
        Err(raised) => Err(raised),
    }
}

/// A subtype with bounds of its own where there are some, or the exception that these raise (3.3.2).
pub fn narrowed<N: NameValues>(
    limits: Limits,
    own: &Option<Bounds>,
    names: &N,
) -> Result<Limits, Raised>
    ensures { result ≡ narrowed (N.table names.now) (N.vars names.now) limits (option_map plain_bounds own.now) }
{
    match own {
        None => Ok(limits),
        Some(own) => match bounds(own, names) {
            Ok(range) => Ok(Limits {
                kind: limits.kind,
                first: range.first,
                last: range.last,
            }),
            Err(raised) => Err(raised),
        },
    }
}

/// A discrete range: its kind and its bounds, or the exception that these raise (3.6).
pub fn range<N: NameValues>(range: &Drange, names: &N) -> Result<Limits, Raised>
    ensures { result ≡ range_of (N.table names.now) (N.vars names.now) (plain_drange range.now) }
{
    match range {
        Drange::Given(given) => bounds(given, names),
        Drange::Marked(marked) => {
            narrowed(names.limits(marked.mark.name), &marked.bounds, names)
        }
    }
}
