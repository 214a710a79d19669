// The literals of indices.

ghost use Rattle.std.specs.Prelude.{◌≡◌, negsuc, IfOk};
ghost use Rattle.ada_tree.specs.PlainExpr.{plain_expr};
ghost use Rattle.normal_model.specs.Members.{integer_literal};
ghost use Rattle.normal_lookups.specs.pieces.Seen.{literal_seen};

use crate::pieces::Literal;
use ada_tree::{Expr, Memory, NameId, Span, UnaryOp, Word};
use std::alloc::Global;
use tree_rewriting::making::{attribute_expr, integer_expr, name_expr, unary_of};

// INTEGER'FIRST, for the number that has no literal.
fn first_integer(span: Span) -> Expr
    ensures { plain_expr result ≡ integer_literal span (negsuc 2147483647) }
{
    let mark = Word {
        name: NameId::INTEGER,
        span,
    };
    let word = Word {
        name: NameId::FIRST,
        span,
    };
    attribute_expr(mark, word, span)
}

// A number, with a minus sign where it is negative.
fn number_expr(alloc: Global, value: i32, span: Span) -> Result<Expr, Memory>
    ensures { IfOk result (λ made. plain_expr made ≡ integer_literal span value) }
{
    if value >= 0 {
        return Ok(integer_expr(value.unsigned_abs(), span));
    }
    if value == i32::MIN {
        return Ok(first_integer(span));
    }
    unary_of(
        alloc,
        UnaryOp::Minus,
        Ok(integer_expr(value.unsigned_abs(), span)),
        span,
    )
}

/// The literal of an index at a place.
pub fn literal_expr(alloc: Global, literal: Literal, span: Span) -> Result<Expr, Memory>
    ensures { IfOk result (λ made. plain_expr made ≡ literal_seen span literal) }
{
    match literal {
        Literal::Number(value) => number_expr(alloc, value, span),
        Literal::Name(name) => Ok(name_expr(name, span)),
    }
}
