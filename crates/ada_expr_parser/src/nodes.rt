//! The nodes of the tree, each with its place.

ghost use Rattle.std.specs.Prelude.{◌≡◌, IfOk};
ghost use Rattle.ada_tree.specs.PlainExpr.{plain_expr};
ghost use Rattle.ada_expr_parser.specs.Trees as trees;

use ada_tree::{BinaryOp, Expr, ExprKind, Span, UnaryOp, Word};
use std::alloc::{AllocError, Global};

/// From the start of one piece to the end of another.
fn from_to(first: Span, last: Span) -> Span
    ensures { result ≡ trees.from_to first last }
{
    Span {
        start: first.start,
        end: last.end,
    }
}

pub fn indexed(alloc: Global, name: Word, arg: Expr, close: Span) -> Result<Expr, AllocError>
    ensures { IfOk result (λ node. plain_expr node ≡ trees.indexed name (plain_expr arg) close) }
{
    let span = from_to(name.span, close);
    let arg = Box::new(alloc, arg)?;
    Ok(Expr {
        kind: ExprKind::Index { name, arg },
        span,
    })
}

pub fn attribute(mark: Word, word: Word) -> Expr
    ensures { plain_expr result ≡ trees.attribute mark word }
{
    Expr {
        kind: ExprKind::Attribute {
            mark,
            word,
            arg: None,
        },
        span: from_to(mark.span, word.span),
    }
}

pub fn attribute_of(
    alloc: Global,
    mark: Word,
    word: Word,
    arg: Expr,
    close: Span,
) -> Result<Expr, AllocError>
    ensures { IfOk result (λ node. plain_expr node ≡ trees.attribute_of mark word (plain_expr arg) close) }
{
    let span = from_to(mark.span, close);
    let arg = Box::new(alloc, arg)?;
    Ok(Expr {
        kind: ExprKind::Attribute {
            mark,
            word,
            arg: Some(arg),
        },
        span,
    })
}

pub fn in_parens(alloc: Global, lead: Span, part: Expr, close: Span) -> Result<Expr, AllocError>
    ensures { IfOk result (λ node. plain_expr node ≡ trees.in_parens lead (plain_expr part) close) }
{
    let part = Box::new(alloc, part)?;
    Ok(Expr {
        kind: ExprKind::Paren(part),
        span: from_to(lead, close),
    })
}

#[tactic(auto, using(crate::proofs::Places::span_is))]
pub fn with_prefix(alloc: Global, op: UnaryOp, at: Span, part: Expr) -> Result<Expr, AllocError>
    ensures { IfOk result (λ node. plain_expr node ≡ trees.with_prefix record { op = op; span = at } (plain_expr part)) }
{
    let span = from_to(at, part.span);
    let part = Box::new(alloc, part)?;
    Ok(Expr {
        kind: ExprKind::Unary { op, part },
        span,
    })
}

#[tactic(auto, using(crate::proofs::Places::span_is))]
pub fn joined(alloc: Global, left: Expr, op: BinaryOp, right: Expr) -> Result<Expr, AllocError>
    ensures { IfOk result (λ node. plain_expr node ≡ trees.joined (plain_expr left) op (plain_expr right)) }
{
    let span = from_to(left.span, right.span);
    let left = Box::new(alloc, left)?;
    let right = Box::new(alloc, right)?;
    Ok(Expr {
        kind: ExprKind::Binary { op, left, right },
        span,
    })
}
