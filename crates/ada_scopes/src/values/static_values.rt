// Static expressions and their values (4.9).

ghost use Rattle.std.specs.Prelude.{◌≡◌, slice_get, FitsSigned};
ghost use Rattle.std.specs.Bool.{OnTrue};
ghost use Rattle.std.specs.Int.{w64};
ghost use Rattle.ada_tree.specs.PlainExpr.{plain_expr};
ghost use Rattle.ada_tree.specs.Attributes.{attribute_of, is_bound};
ghost use Rattle.ada_static_rules.specs.StaticValue.{is_static, value_of, keeps_static, is_of_kind, of_base, attribute_at, bound_of};
ghost use Rattle.ada_scopes.specs.values.StaticAnswer.{static_answer};

use crate::values::named_values::{mark_of, value_of_name};
use crate::values::operations::{apply, apply_one};
use ada_static_rules::errors::TypeError;
use ada_tree::{BinaryOp, Expr, ExprKind, Kind, Mark, NameId, Span, Types};

/// Whether a word behind a tick is FIRST or LAST, which ask for a bound (3.5).
pub fn is_bound_word(word: NameId) -> bool
    ensures { result ≡ is_bound (attribute_of word) }
{
    word == NameId::FIRST || word == NameId::LAST
}

/// Whether a word behind a tick is POS, VAL, SUCC or PRED, which are static of a static operand (3.5.5, 4.9).
pub fn is_static_word(word: NameId) -> bool
    ensures { result ≡ keeps_static (attribute_of word) }
{
    word == NameId::POS || word == NameId::VAL || word == NameId::SUCC || word == NameId::PRED
}

/// Whether an expression is static: built of literals, named numbers and scalar constants of the main procedure, operators, and attributes of static parts (4.9).
pub fn is_static(e: &Expr, types: &Types) -> bool
    ensures { result ≡ is_static types.now (plain_expr e.now) }
{
    match &e.kind {
        ExprKind::Integer(_) => true,
        ExprKind::Name(id) => value_of_name(types, *id).is_some(),
        ExprKind::Index { .. } => false,
        ExprKind::Attribute { mark, word, arg } => match arg {
            None => is_bound_word(word.name) && mark_of(types, mark.name).is_some(),
            Some(part) => {
                is_static_word(word.name)
                    && mark_of(types, mark.name).is_some()
                    && is_static(part, types)
            }
        },
        ExprKind::Paren(part) => is_static(part, types),
        ExprKind::Unary { part, .. } => is_static(part, types),
        ExprKind::Binary { left, right, .. } => is_static(left, types) && is_static(right, types),
    }
}

// Whether a value is one of the type of a kind.
fn is_in_type(types: &Types, mark: Mark, value: i128) -> bool
    ensures test { result ≡ is_of_kind (slice_get types.now.kinds mark.kind) value }
    ensures fits { OnTrue result (FitsSigned w64 value) }
{
    match types.kinds.get(mark.kind as usize) {
        Some(Kind::Integer) => value >= -2147483648 && value <= 2147483647,
        Some(Kind::Truth) => value >= 0 && value <= 1,
        Some(Kind::Enumeration { literals }) => {
            value >= 0 && value < literals.as_slice().len() as i128
        }
        _ => false,
    }
}

// A value of the base type of a mark, or the place of the attribute, which raises.
fn in_base(types: &Types, mark: Option<Mark>, span: Span, value: i128) -> Result<i64, Span>
    ensures { result ≡ of_base types.now mark span value }
{
    match mark {
        Some(mark) => {
            if is_in_type(types, mark, value) {
                Ok(value as i64)
            } else {
                Err(span)
            }
        }
        None => Err(span),
    }
}

// The value of an attribute with an argument of that value.
pub fn attribute_value(
    types: &Types,
    mark: Option<Mark>,
    word: NameId,
    span: Span,
    value: i64,
) -> Result<i64, Span>
    ensures { result ≡ attribute_at types.now mark (attribute_of word) span value }
{
    if word == NameId::POS {
        Ok(value)
    } else if word == NameId::VAL {
        in_base(types, mark, span, value as i128)
    } else if word == NameId::SUCC {
        in_base(types, mark, span, value as i128 + 1)
    } else if word == NameId::PRED {
        in_base(types, mark, span, value as i128 - 1)
    } else {
        Err(span)
    }
}

// The bound of a type or subtype.
pub fn bound_value(mark: Option<Mark>, word: NameId) -> i64
    ensures { result ≡ bound_of (attribute_of word) mark }
{
    match mark {
        Some(mark) => {
            if word == NameId::FIRST {
                mark.first as i64
            } else if word == NameId::LAST {
                mark.last as i64
            } else {
                0
            }
        }
        None => 0,
    }
}

// The value of a static expression, or the place of the operation in it that raises.
fn evaluate(e: &Expr, types: &Types) -> Result<i64, Span>
    ensures { result ≡ value_of types.now (plain_expr e.now) }
{
    match &e.kind {
        ExprKind::Integer(n) => Ok(*n as i64),
        ExprKind::Name(id) => match value_of_name(types, *id) {
            Some(value) => Ok(value),
            None => Ok(0),
        },
        ExprKind::Index { .. } => Ok(0),
        ExprKind::Attribute { mark, word, arg } => match arg {
            None => Ok(bound_value(mark_of(types, mark.name), word.name)),
            Some(part) => match evaluate(part, types) {
                Ok(value) => attribute_value(
                    types,
                    mark_of(types, mark.name),
                    word.name,
                    e.span,
                    value,
                ),
                Err(span) => Err(span),
            },
        },
        ExprKind::Paren(part) => evaluate(part, types),
        ExprKind::Unary { op, part } => match evaluate(part, types) {
            Ok(value) => apply_one(*op, e.span, value),
            Err(span) => Err(span),
        },
        ExprKind::Binary { op, left, right } => match evaluate(left, types) {
            Ok(value) => {
                if *op == BinaryOp::AndThen && value == 0 {
                    return Ok(0);
                }
                if *op == BinaryOp::OrElse && value != 0 {
                    return Ok(1);
                }
                match evaluate(right, types) {
                    Ok(other) => {
                        if *op == BinaryOp::AndThen || *op == BinaryOp::OrElse {
                            Ok(other)
                        } else {
                            apply(*op, e.span, value, other)
                        }
                    }
                    Err(span) => Err(span),
                }
            }
            Err(span) => Err(span),
        },
    }
}

/// The value of a static expression; for a truth value or an enumeration it is its position. `NotStatic` has the place of the whole expression, and comes exactly where it is not static: where it is not built of literals, named numbers and scalar constants of the main procedure, operators, and attributes of static parts (4.9). `RangeBad` has the place of the operation that raises, and comes exactly where the expression is static and one does, short-circuit forms evaluated as they run. It takes no memory.
pub fn static_value(e: &Expr, types: &Types) -> Result<i64, TypeError>
    ensures { result ≡ static_answer types.now (plain_expr e.now) }
{
    if !is_static(e, types) {
        return Err(TypeError::NotStatic { span: e.span });
    }
    match evaluate(e, types) {
        Ok(value) => Ok(value),
        Err(span) => Err(TypeError::RangeBad { span }),
    }
}
