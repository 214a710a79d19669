//! Expressions, by the grammar of ANSI/MIL-STD-1815A 4.4. Each reader takes how many levels may stand below the root of
//! what it reads, and gives the tree, how many do, and what stands behind it.

ghost use Rattle.std.specs.Prelude.{◌≡◌, ◌<◌, ◌≤◌, ◌+◌, ◌-◌, ℕ, IfOk, length};
ghost use Rattle.ada_expr_parser.specs.readers.Readers.{chain_in};
ghost use Rattle.ada_tree.specs.PlainExpr.{plain_expr};
ghost use Rattle.ada_expr_parser.specs.Tests as tests;
ghost use Rattle.ada_expr_parser.specs.Trees.{levels};
ghost use Rattle.ada_expr_parser.specs.Reading as reading;
ghost use Rattle.ada_expr_parser.specs.Gives.{Gives};

use crate::errors::ParseError;
use crate::items::{Item, ItemKind};
use crate::levels::Level;
use crate::nodes::{attribute, attribute_of, in_parens, indexed, joined, with_prefix};
use crate::operators::{
    expect, expect_word, factor_operator, last_operator, operator_in, operator_rest, sign,
    symbol_in,
};
use ada_lexer::Symbol;
use ada_tree::{BinaryOp, Expr, ExprKind, Word};
use std::alloc::Global;

/// Relations, nested to the left, all joined by one logical operator or short-circuit form.
#[tactic(auto, using(crate::proofs::Steps::steps))]
#[cycle(expr)]
pub fn logical<'a>(
    alloc: Global,
    depth: u32,
    items: &'a [Item],
) -> Result<(Expr, u32, &'a [Item]), ParseError>
    ensures tree { Gives (λ x. plain_expr x.0) (λ x. x.2.now) result (reading.logical_at depth (reading.inner depth) items.now) }
    ensures height { IfOk result (λ x. x.1 ≡ levels (plain_expr x.0)) }
    ensures within { IfOk result (λ x. x.1 ≤ depth) }
    ensures shorter { IfOk result (λ x. length x.2.now < length items.now) }
{
    let (left, height, rest) = relation(alloc, depth, items)?;
    more(alloc, Level::Logical, depth, left, height, rest)
}

/// A simple expression, or two that are compared.
#[tactic(auto, using(crate::proofs::Steps::steps))]
#[cycle(expr)]
pub fn relation<'a>(
    alloc: Global,
    depth: u32,
    items: &'a [Item],
) -> Result<(Expr, u32, &'a [Item]), ParseError>
    ensures tree { Gives (λ x. plain_expr x.0) (λ x. x.2.now) result (reading.relation_at depth (reading.inner depth) items.now) }
    ensures height { IfOk result (λ x. x.1 ≡ levels (plain_expr x.0)) }
    ensures within { IfOk result (λ x. x.1 ≤ depth) }
    ensures shorter { IfOk result (λ x. length x.2.now < length items.now) }
{
    let (left, height, rest) = simple(alloc, depth, items)?;
    more(alloc, Level::Relation, depth, left, height, rest)
}

/// Terms, nested to the left, the first with a sign or without.
#[tactic(auto, using(crate::proofs::Steps::steps))]
#[cycle(expr)]
pub fn simple<'a>(
    alloc: Global,
    depth: u32,
    items: &'a [Item],
) -> Result<(Expr, u32, &'a [Item]), ParseError>
    ensures tree { Gives (λ x. plain_expr x.0) (λ x. x.2.now) result (reading.simple_at depth (reading.inner depth) items.now) }
    ensures height { IfOk result (λ x. x.1 ≡ levels (plain_expr x.0)) }
    ensures within { IfOk result (λ x. x.1 ≤ depth) }
    ensures shorter { IfOk result (λ x. length x.2.now < length items.now) }
{
    let (left, height, rest) = signed(alloc, depth, items)?;
    more(alloc, Level::Simple, depth, left, height, rest)
}

/// A term, or one behind a sign.
#[tactic(auto, using(crate::proofs::Steps::steps))]
#[cycle(expr)]
fn signed<'a>(
    alloc: Global,
    depth: u32,
    items: &'a [Item],
) -> Result<(Expr, u32, &'a [Item]), ParseError>
    ensures tree { Gives (λ x. plain_expr x.0) (λ x. x.2.now) result (reading.signed_at depth (reading.inner depth) items.now) }
    ensures height { IfOk result (λ x. x.1 ≡ levels (plain_expr x.0)) }
    ensures within { IfOk result (λ x. x.1 ≤ depth) }
    ensures shorter { IfOk result (λ x. length x.2.now < length items.now) }
{
    let [next, rest @ ..] = items else {
        return Err(ParseError::Syntax { at: 0 });
    };
    match sign(next.kind) {
        None => term(alloc, depth, items),
        Some(_) if depth == 0 => Err(ParseError::TooDeep {
            at: next.span.start,
        }),
        Some(op) => {
            let (part, height, rest) = below(alloc, Level::Term, depth, rest)?;
            let node = with_prefix(alloc, op, next.span, part)?;
            Ok((node, height + 1, rest))
        }
    }
}

/// Factors, nested to the left.
#[tactic(auto, using(crate::proofs::Steps::steps))]
#[cycle(expr)]
pub fn term<'a>(
    alloc: Global,
    depth: u32,
    items: &'a [Item],
) -> Result<(Expr, u32, &'a [Item]), ParseError>
    ensures tree { Gives (λ x. plain_expr x.0) (λ x. x.2.now) result (reading.term_at depth (reading.inner depth) items.now) }
    ensures height { IfOk result (λ x. x.1 ≡ levels (plain_expr x.0)) }
    ensures within { IfOk result (λ x. x.1 ≤ depth) }
    ensures shorter { IfOk result (λ x. length x.2.now < length items.now) }
{
    let (left, height, rest) = factor(alloc, depth, items)?;
    more(alloc, Level::Term, depth, left, height, rest)
}

/// A primary, or one behind `abs` or `not`.
#[tactic(auto, using(crate::proofs::Steps::steps))]
#[cycle(expr)]
fn factor<'a>(
    alloc: Global,
    depth: u32,
    items: &'a [Item],
) -> Result<(Expr, u32, &'a [Item]), ParseError>
    ensures tree { Gives (λ x. plain_expr x.0) (λ x. x.2.now) result (reading.factor_at depth (reading.inner depth) items.now) }
    ensures height { IfOk result (λ x. x.1 ≡ levels (plain_expr x.0)) }
    ensures within { IfOk result (λ x. x.1 ≤ depth) }
    ensures shorter { IfOk result (λ x. length x.2.now < length items.now) }
{
    let [next, rest @ ..] = items else {
        return Err(ParseError::Syntax { at: 0 });
    };
    match factor_operator(next.kind) {
        None => primary(alloc, depth, items),
        Some(_) if depth == 0 => Err(ParseError::TooDeep {
            at: next.span.start,
        }),
        Some(op) => {
            let (part, height, rest) = below(alloc, Level::Primary, depth, rest)?;
            let node = with_prefix(alloc, op, next.span, part)?;
            Ok((node, height + 1, rest))
        }
    }
}

/// A literal, an expression in parentheses, or what begins with a name.
#[tactic(auto, using(crate::proofs::Steps::steps))]
#[cycle(expr)]
fn primary<'a>(
    alloc: Global,
    depth: u32,
    items: &'a [Item],
) -> Result<(Expr, u32, &'a [Item]), ParseError>
    ensures tree { Gives (λ x. plain_expr x.0) (λ x. x.2.now) result (reading.primary_at depth (reading.inner depth) items.now) }
    ensures height { IfOk result (λ x. x.1 ≡ levels (plain_expr x.0)) }
    ensures within { IfOk result (λ x. x.1 ≤ depth) }
    ensures shorter { IfOk result (λ x. length x.2.now < length items.now) }
{
    let [next, rest @ ..] = items else {
        return Err(ParseError::Syntax { at: 0 });
    };
    match next.kind {
        ItemKind::Integer(value) => Ok((
            Expr {
                kind: ExprKind::Integer(value),
                span: next.span,
            },
            0,
            rest,
        )),
        ItemKind::Name(name) => named(
            alloc,
            Word {
                name,
                span: next.span,
            },
            depth,
            rest,
        ),
        _ => parens(alloc, depth, items),
    }
}

/// An expression in parentheses.
#[tactic(auto, using(crate::proofs::Steps::steps))]
#[cycle(expr)]
fn parens<'a>(
    alloc: Global,
    depth: u32,
    items: &'a [Item],
) -> Result<(Expr, u32, &'a [Item]), ParseError>
    ensures tree { Gives (λ x. plain_expr x.0) (λ x. x.2.now) result (reading.parens_at depth (reading.inner depth) items.now) }
    ensures height { IfOk result (λ x. x.1 ≡ levels (plain_expr x.0)) }
    ensures within { IfOk result (λ x. x.1 ≤ depth) }
    ensures shorter { IfOk result (λ x. length x.2.now < length items.now) }
{
    let [next, rest @ ..] = items else {
        return Err(ParseError::Syntax { at: 0 });
    };
    match symbol_in(Symbol::LeftParen, *next) {
        None => Err(ParseError::Syntax {
            at: next.span.start,
        }),
        Some(_) if depth == 0 => Err(ParseError::TooDeep {
            at: next.span.start,
        }),
        Some(lead) => {
            let (part, height, rest) = below(alloc, Level::Logical, depth, rest)?;
            let (close, rest) = expect(Symbol::RightParen, rest)?;
            let node = in_parens(alloc, lead, part, close)?;
            Ok((node, height + 1, rest))
        }
    }
}

/// What stands behind a name: an index, an attribute, or nothing that belongs to it.
#[tactic(auto, using(crate::proofs::Steps::steps))]
#[cycle(expr)]
fn named<'a>(
    alloc: Global,
    name: Word,
    depth: u32,
    items: &'a [Item],
) -> Result<(Expr, u32, &'a [Item]), ParseError>
    ensures tree { Gives (λ x. plain_expr x.0) (λ x. x.2.now) result (reading.name_rest depth (reading.inner depth) name items.now) }
    ensures height { IfOk result (λ x. x.1 ≡ levels (plain_expr x.0)) }
    ensures within { IfOk result (λ x. x.1 ≤ depth) }
    ensures shorter { IfOk result (λ x. length x.2.now ≤ length items.now) }
{
    let [next, rest @ ..] = items else {
        return Err(ParseError::Syntax { at: 0 });
    };
    if symbol_in(Symbol::LeftParen, *next).is_some() {
        if depth == 0 {
            return Err(ParseError::TooDeep {
                at: next.span.start,
            });
        }
        let (arg, height, rest) = below(alloc, Level::Logical, depth, rest)?;
        let (close, rest) = expect(Symbol::RightParen, rest)?;
        let node = indexed(alloc, name, arg, close)?;
        return Ok((node, height + 1, rest));
    }
    if symbol_in(Symbol::Tick, *next).is_some() {
        let (word, rest) = expect_word(rest)?;
        return attributed(alloc, name, word, depth, rest);
    }
    Ok((
        Expr {
            kind: ExprKind::Name(name.name),
            span: name.span,
        },
        0,
        items,
    ))
}

/// What stands behind an attribute's word: an argument, or nothing that belongs to it.
#[tactic(auto, using(crate::proofs::Steps::steps))]
#[cycle(expr)]
fn attributed<'a>(
    alloc: Global,
    mark: Word,
    word: Word,
    depth: u32,
    items: &'a [Item],
) -> Result<(Expr, u32, &'a [Item]), ParseError>
    ensures tree { Gives (λ x. plain_expr x.0) (λ x. x.2.now) result (reading.attribute_rest depth (reading.inner depth) mark word items.now) }
    ensures height { IfOk result (λ x. x.1 ≡ levels (plain_expr x.0)) }
    ensures within { IfOk result (λ x. x.1 ≤ depth) }
    ensures shorter { IfOk result (λ x. length x.2.now ≤ length items.now) }
{
    let [next, rest @ ..] = items else {
        return Err(ParseError::Syntax { at: 0 });
    };
    if symbol_in(Symbol::LeftParen, *next).is_none() {
        return Ok((attribute(mark, word), 0, items));
    }
    if depth == 0 {
        return Err(ParseError::TooDeep {
            at: next.span.start,
        });
    }
    let (arg, height, rest) = below(alloc, Level::Logical, depth, rest)?;
    let (close, rest) = expect(Symbol::RightParen, rest)?;
    let node = attribute_of(alloc, mark, word, arg, close)?;
    Ok((node, height + 1, rest))
}

/// What stands one level deeper.
#[tactic(auto, using(crate::proofs::Steps::steps))]
#[cycle(expr)]
pub fn below<'a>(
    alloc: Global,
    level: Level,
    depth: u32,
    items: &'a [Item],
) -> Result<(Expr, u32, &'a [Item]), ParseError>
    requires { 0 < depth }
    ensures tree { Gives (λ x. plain_expr x.0) (λ x. x.2.now) result (reading.inner depth level items.now) }
    ensures height { IfOk result (λ x. x.1 ≡ levels (plain_expr x.0)) }
    ensures within { IfOk result (λ x. x.1 + 1 ≤ depth) }
    ensures shorter { IfOk result (λ x. length x.2.now < length items.now) }
{
    let depth = depth - 1;
    match level {
        Level::Logical => logical(alloc, depth, items),
        Level::Relation => relation(alloc, depth, items),
        Level::Simple => simple(alloc, depth, items),
        Level::Term => term(alloc, depth, items),
        Level::Factor => factor(alloc, depth, items),
        Level::Primary => primary(alloc, depth, items),
    }
}

/// The operators and operands of a level that follow the tree on their left, which has `height` levels below it.
#[tactic(auto, using(crate::proofs::Steps::steps))]
#[cycle(expr)]
pub fn more<'a>(
    alloc: Global,
    level: Level,
    depth: u32,
    left: Expr,
    height: u32,
    items: &'a [Item],
) -> Result<(Expr, u32, &'a [Item]), ParseError>
    requires height { height ≡ levels (plain_expr left) }
    requires within { height ≤ depth }
    ensures tree { (turns : ℕ) → depth ≤ turns + height → Gives (λ x. plain_expr x.0) (λ x. x.2.now) result (chain_in (reading.operators level) depth (reading.inner depth (tests.tighter level)) turns (plain_expr left) items.now) }
    ensures height { IfOk result (λ x. x.1 ≡ levels (plain_expr x.0)) }
    ensures within { IfOk result (λ x. x.1 ≤ depth) }
    ensures shorter { IfOk result (λ x. length x.2.now ≤ length items.now) }
{
    let [next, rest @ ..] = items else {
        return Err(ParseError::Syntax { at: 0 });
    };
    let last = last_operator(&left);
    let Some(op) = operator_in(level, last, next.kind) else {
        return Ok((left, height, items));
    };
    if depth <= height {
        return Err(ParseError::TooDeep {
            at: next.span.start,
        });
    }
    further(alloc, level, depth, left, height, last, op, rest)
}

/// The rest of an operator that begins so, its operand, and what of the chain follows them.
#[tactic(auto, using(crate::proofs::Steps::steps))]
#[cycle(expr)]
fn further<'a>(
    alloc: Global,
    level: Level,
    depth: u32,
    left: Expr,
    height: u32,
    last: Option<BinaryOp>,
    op: BinaryOp,
    items: &'a [Item],
) -> Result<(Expr, u32, &'a [Item]), ParseError>
    requires height { height ≡ levels (plain_expr left) }
    requires within { height < depth }
    ensures tree { (turns : ℕ) → depth ≤ turns + (height + 1) → Gives (λ x. plain_expr x.0) (λ x. x.2.now) result (reading.behind_operator level depth (reading.inner depth (tests.tighter level)) turns (plain_expr left) last op items.now) }
    ensures height { IfOk result (λ x. x.1 ≡ levels (plain_expr x.0)) }
    ensures within { IfOk result (λ x. x.1 ≤ depth) }
    ensures shorter { IfOk result (λ x. length x.2.now < length items.now) }
{
    let (op, rest) = operator_rest(last, op, items)?;
    let (right, other, rest) = operand(alloc, level, depth, rest)?;
    let node = joined(alloc, left, op, right)?;
    more(alloc, level, depth, node, height.max(other) + 1, rest)
}

/// The operand behind an operator of a level, one level deeper.
#[tactic(auto, using(crate::proofs::Steps::steps))]
#[cycle(expr)]
fn operand<'a>(
    alloc: Global,
    level: Level,
    depth: u32,
    items: &'a [Item],
) -> Result<(Expr, u32, &'a [Item]), ParseError>
    requires { 0 < depth }
    ensures tree { Gives (λ x. plain_expr x.0) (λ x. x.2.now) result (reading.inner depth (tests.tighter level) items.now) }
    ensures height { IfOk result (λ x. x.1 ≡ levels (plain_expr x.0)) }
    ensures within { IfOk result (λ x. x.1 + 1 ≤ depth) }
    ensures shorter { IfOk result (λ x. length x.2.now < length items.now) }
{
    match level {
        Level::Logical => below(alloc, Level::Relation, depth, items),
        Level::Relation => below(alloc, Level::Simple, depth, items),
        Level::Simple => below(alloc, Level::Term, depth, items),
        Level::Term => below(alloc, Level::Factor, depth, items),
        Level::Factor | Level::Primary => below(alloc, Level::Primary, depth, items),
    }
}
