// Copies of expressions, ranges and lists of names.

ghost use Rattle.std.specs.Prelude.{◌≡◌, IfOk, Some, map, option_map};
ghost use Rattle.ada_tree.specs.PlainExpr.{plain_expr, plain_bounds, plain_subind, plain_drange, EIndex, EAttributeOf, EParen, EUnary, EBinary, RGiven, RMarked};
ghost use Rattle.ada_stmt_copy.specs.expressions.Parts.{OkWith};

use crate::expressions::ExprCopy;
use crate::expressions::joining::{both, boxed, put, there};
use ada_tree::{BinaryOp, Bounds, Drange, Expr, ExprKind, Memory, Span, Subind, UnaryOp, Word};
use std::alloc::Global;

fn index_of(name: Word, arg: Result<Box<Expr>, Memory>, span: Span) -> Result<Expr, Memory>
    ensures { IfOk result (λ made. OkWith arg (λ a. plain_expr made ≡ EIndex name (plain_expr a.value) span)) }
{
    match arg {
        Ok(arg) => Ok(Expr {
            kind: ExprKind::Index { name, arg },
            span,
        }),
        Err(e) => Err(e),
    }
}

/// An attribute with an argument, which comes in a box of its own.
pub fn boxed_attribute(
    mark: Word,
    word: Word,
    arg: Result<Box<Expr>, Memory>,
    span: Span,
) -> Result<Expr, Memory>
    ensures { IfOk result (λ made. OkWith arg (λ a. plain_expr made ≡ EAttributeOf mark word (plain_expr a.value) span)) }
{
    match arg {
        Ok(arg) => Ok(Expr {
            kind: ExprKind::Attribute {
                mark,
                word,
                arg: Some(arg),
            },
            span,
        }),
        Err(e) => Err(e),
    }
}

fn paren_of(inner: Result<Box<Expr>, Memory>, span: Span) -> Result<Expr, Memory>
    ensures { IfOk result (λ made. OkWith inner (λ a. plain_expr made ≡ EParen (plain_expr a.value) span)) }
{
    match inner {
        Ok(inner) => Ok(Expr {
            kind: ExprKind::Paren(inner),
            span,
        }),
        Err(e) => Err(e),
    }
}

fn unary_of(op: UnaryOp, part: Result<Box<Expr>, Memory>, span: Span) -> Result<Expr, Memory>
    ensures { IfOk result (λ made. OkWith part (λ a. plain_expr made ≡ EUnary op (plain_expr a.value) span)) }
{
    match part {
        Ok(part) => Ok(Expr {
            kind: ExprKind::Unary { op, part },
            span,
        }),
        Err(e) => Err(e),
    }
}

fn binary_of(
    op: BinaryOp,
    left: Result<Box<Expr>, Memory>,
    right: Result<Box<Expr>, Memory>,
    span: Span,
) -> Result<Expr, Memory>
    ensures { IfOk result (λ made. OkWith left (λ a. OkWith right (λ b. plain_expr made ≡ EBinary op (plain_expr a.value) (plain_expr b.value) span))) }
{
    match both(left, right) {
        Ok((left, right)) => Ok(Expr {
            kind: ExprKind::Binary { op, left, right },
            span,
        }),
        Err(e) => Err(e),
    }
}

impl ExprCopy for Expr {
    /// A copy with the same ids and places.
    #[cycle(copy_expr)]
    fn copy(&self, alloc: Global) -> Result<Expr, Memory>
        ensures { IfOk result (λ copy. plain_expr copy ≡ plain_expr self.now) }
    {
        let span = self.span;
        match &self.kind {
            ExprKind::Integer(value) => Ok(Expr {
                kind: ExprKind::Integer(*value),
                span,
            }),
            ExprKind::Name(name) => Ok(Expr {
                kind: ExprKind::Name(*name),
                span,
            }),
            ExprKind::Index { name, arg } => index_of(*name, copy_boxed(alloc, arg), span),
            ExprKind::Attribute {
                mark,
                word,
                arg: None,
            } => Ok(Expr {
                kind: ExprKind::Attribute {
                    mark: *mark,
                    word: *word,
                    arg: None,
                },
                span,
            }),
            ExprKind::Attribute {
                mark,
                word,
                arg: Some(arg),
            } => boxed_attribute(*mark, *word, copy_boxed(alloc, arg), span),
            ExprKind::Paren(inner) => paren_of(copy_boxed(alloc, inner), span),
            ExprKind::Unary { op, part } => unary_of(*op, copy_boxed(alloc, part), span),
            ExprKind::Binary { op, left, right } => {
                let left = copy_boxed(alloc, left);
                let right = copy_boxed(alloc, right);
                binary_of(*op, left, right, span)
            }
        }
    }
}

#[cycle(copy_expr)]
fn copy_boxed(alloc: Global, expr: &Expr) -> Result<Box<Expr>, Memory>
    ensures { IfOk result (λ copy. plain_expr copy.value ≡ plain_expr expr.now) }
{
    boxed(alloc, expr.copy(alloc))
}

impl ExprCopy for Bounds {
    /// A copy with the same ids and places.
    fn copy(&self, alloc: Global) -> Result<Bounds, Memory>
        ensures { IfOk result (λ copy. plain_bounds copy ≡ plain_bounds self.now) }
    {
        match both(self.first.copy(alloc), self.last.copy(alloc)) {
            Ok((first, last)) => Ok(Bounds { first, last }),
            Err(e) => Err(e),
        }
    }
}

impl ExprCopy for Subind {
    /// A copy with the same ids and places.
    fn copy(&self, alloc: Global) -> Result<Subind, Memory>
        ensures { IfOk result (λ copy. plain_subind copy ≡ plain_subind self.now) }
    {
        match &self.bounds {
            Some(bounds) => bounded_of(self.mark, bounds.copy(alloc)),
            None => Ok(Subind {
                mark: self.mark,
                bounds: None,
            }),
        }
    }
}

fn bounded_of(mark: Word, bounds: Result<Bounds, Memory>) -> Result<Subind, Memory>
    ensures { IfOk result (λ made. OkWith bounds (λ b. made ≡ record { mark = mark; bounds = Some b })) }
{
    match bounds {
        Ok(bounds) => Ok(Subind {
            mark,
            bounds: Some(bounds),
        }),
        Err(e) => Err(e),
    }
}

impl ExprCopy for Drange {
    /// A copy with the same ids and places.
    fn copy(&self, alloc: Global) -> Result<Drange, Memory>
        ensures { IfOk result (λ copy. plain_drange copy ≡ plain_drange self.now) }
    {
        match self {
            Drange::Given(bounds) => given_of(bounds.copy(alloc)),
            Drange::Marked(mark) => marked_of(mark.copy(alloc)),
        }
    }
}

fn given_of(bounds: Result<Bounds, Memory>) -> Result<Drange, Memory>
    ensures { IfOk result (λ made. OkWith bounds (λ b. plain_drange made ≡ RGiven (plain_bounds b))) }
{
    match bounds {
        Ok(bounds) => Ok(Drange::Given(bounds)),
        Err(e) => Err(e),
    }
}

fn marked_of(mark: Result<Subind, Memory>) -> Result<Drange, Memory>
    ensures { IfOk result (λ made. OkWith mark (λ m. plain_drange made ≡ RMarked (plain_subind m))) }
{
    match mark {
        Ok(mark) => Ok(Drange::Marked(mark)),
        Err(e) => Err(e),
    }
}

/// A copy of a list of names.
pub fn copy_words(alloc: Global, words: &[Word]) -> Result<Vec<Word>, Memory>
    ensures { IfOk result (λ copy. copy.items ≡ words.now) }
{
    Ok(words.to_vec(alloc)?)
}

/// A copy of an expression that may be left out.
pub fn copy_option(alloc: Global, expr: &Option<Expr>) -> Result<Option<Expr>, Memory>
    ensures { IfOk result (λ copy. option_map plain_expr copy ≡ option_map plain_expr expr.now) }
{
    match expr {
        Some(expr) => there(expr.copy(alloc)),
        None => Ok(None),
    }
}

/// A copy of a list of expressions.
pub fn copy_exprs(alloc: Global, exprs: &[Expr]) -> Result<Vec<Expr>, Memory>
    ensures { IfOk result (λ copy. map plain_expr copy.items ≡ map plain_expr exprs.now) }
{
    let mut copies = Vec::new(alloc);
    for expr in exprs {
        put(&mut copies, expr.copy(alloc))?;
    }
    Ok(copies)
}
