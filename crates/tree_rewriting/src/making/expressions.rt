// Expressions and calls of their parts, which come as results; where one is missing, so is the whole.

ghost use Rattle.std.specs.Prelude.{◌≡◌, IfOk, OnOk, map, option_map, None, Some};
ghost use Rattle.ada_tree.specs.PlainExpr.{plain_expr, EIndex, EAttributeOf, EParen, EUnary, EBinary};
ghost use Rattle.ada_tree.specs.PlainStmt.{plain_args, plain_call};
ghost use Rattle.ada_stmt_copy.specs.expressions.Parts.{OkWith};
ghost use Rattle.tree_rewriting.specs.making.Chains.{chained};

use crate::making::leaves::callee_named;
use crate::making::node_lists::put_expr;
use ada_stmt_copy::expressions::{both, boxed_attribute};
use ada_tree::{Args, BinaryOp, Call, Expr, ExprKind, Memory, Span, UnaryOp, Word};
use std::alloc::Global;
use std::mem;

// A part in a box of its own.
fn boxed<A: Drop>(alloc: Global, part: Result<A, Memory>) -> Result<Box<A>, Memory>
    ensures { IfOk result (λ made. OkWith part (λ a. made.value ≡ a)) }
{
    match part {
        Ok(a) => Ok(Box::new(alloc, a)?),
        Err(e) => Err(e),
    }
}

/// A component of an array.
pub fn component_of(
    alloc: Global,
    name: Word,
    index: Result<Expr, Memory>,
    span: Span,
) -> Result<Expr, Memory>
    ensures { IfOk result (λ made. OkWith index (λ a. plain_expr made ≡ EIndex name (plain_expr a) span)) }
{
    match boxed(alloc, index) {
        Ok(arg) => Ok(Expr {
            kind: ExprKind::Index { name, arg },
            span,
        }),
        Err(e) => Err(e),
    }
}

/// An attribute with an argument.
pub fn attribute_of(
    alloc: Global,
    mark: Word,
    word: Word,
    arg: Result<Expr, Memory>,
    span: Span,
) -> Result<Expr, Memory>
    ensures { IfOk result (λ made. OkWith arg (λ a. plain_expr made ≡ EAttributeOf mark word (plain_expr a) span)) }
{
    match boxed(alloc, arg) {
        Ok(arg) => boxed_attribute(mark, word, Ok(arg), span),
        Err(e) => Err(e),
    }
}

/// An expression in parentheses.
pub fn paren_of(alloc: Global, inner: Result<Expr, Memory>, span: Span) -> Result<Expr, Memory>
    ensures { IfOk result (λ made. OkWith inner (λ a. plain_expr made ≡ EParen (plain_expr a) span)) }
{
    match boxed(alloc, inner) {
        Ok(inner) => Ok(Expr {
            kind: ExprKind::Paren(inner),
            span,
        }),
        Err(e) => Err(e),
    }
}

/// An operator with its operand.
pub fn unary_of(
    alloc: Global,
    op: UnaryOp,
    part: Result<Expr, Memory>,
    span: Span,
) -> Result<Expr, Memory>
    ensures { IfOk result (λ made. OkWith part (λ a. plain_expr made ≡ EUnary op (plain_expr a) span)) }
{
    match boxed(alloc, part) {
        Ok(part) => Ok(Expr {
            kind: ExprKind::Unary { op, part },
            span,
        }),
        Err(e) => Err(e),
    }
}

/// An operator with its two operands.
pub fn binary_of(
    alloc: Global,
    op: BinaryOp,
    left: Result<Expr, Memory>,
    right: Result<Expr, Memory>,
    span: Span,
) -> Result<Expr, Memory>
    ensures { IfOk result (λ made. OkWith left (λ a. OkWith right (λ b. plain_expr made ≡ EBinary op (plain_expr a) (plain_expr b) span))) }
{
    match both(boxed(alloc, left), boxed(alloc, right)) {
        Ok((left, right)) => Ok(Expr {
            kind: ExprKind::Binary { op, left, right },
            span,
        }),
        Err(e) => Err(e),
    }
}

// What stands in a place, and leaves it.
fn taken(place: &mut Option<Expr>) -> Option<Expr>
    ensures { result ≡ place.old }
{
    mem::replace(place, None)
}

/// An expression behind a chain of one operator, which begins with the first that comes.
pub fn chain(
    alloc: Global,
    op: BinaryOp,
    place: &mut Option<Expr>,
    more: Result<Expr, Memory>,
    span: Span,
) -> Result<(), Memory>
    ensures { OnOk result (OkWith more (λ x. option_map plain_expr place.new ≡ Some (chained op (option_map plain_expr place.old) (plain_expr x) span))) }
{
    match taken(place) {
        Some(first) => put_expr(place, binary_of(alloc, op, Ok(first), more, span)),
        None => put_expr(place, more),
    }
}

/// The lists in parentheses behind an entry's name.
pub fn args_of(
    first: Result<Vec<Expr>, Memory>,
    second: Result<Option<Vec<Expr>>, Memory>,
) -> Result<Args, Memory>
    ensures { IfOk result (λ made. OkWith first (λ a. OkWith second (λ b. plain_args made ≡ record { first = map plain_expr a.items; second = option_map (λ v. map plain_expr v.items) b }))) }
{
    match both(first, second) {
        Ok((first, second)) => Ok(Args { first, second }),
        Err(e) => Err(e),
    }
}

/// A call of an entry of the task of a name.
pub fn calling_of(
    task: Word,
    entry: Word,
    args: Result<Option<Args>, Memory>,
) -> Result<Call, Memory>
    ensures { IfOk result (λ made. OkWith args (λ a. plain_call made ≡ record { task = record { name = task; index = None }; entry = entry; args = option_map plain_args a })) }
{
    match args {
        Ok(args) => Ok(Call {
            task: callee_named(task),
            entry,
            args,
        }),
        Err(e) => Err(e),
    }
}
