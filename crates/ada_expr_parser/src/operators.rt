//! What the next item is, and which operator it begins.

ghost use Rattle.std.specs.Prelude.{◌≡◌, ◌<◌, ◌≤◌, IfOk, length};
ghost use Rattle.ada_expr_parser.specs.readers.Readers.{token};
ghost use Rattle.ada_tree.specs.PlainExpr.{plain_expr};
ghost use Rattle.ada_expr_parser.specs.Tests as tests;
ghost use Rattle.ada_expr_parser.specs.Trees as trees;
ghost use Rattle.ada_expr_parser.specs.Reading as reading;
ghost use Rattle.ada_expr_parser.specs.Gives.{Gives};

use crate::errors::ParseError;
use crate::items::{Item, ItemKind};
use crate::levels::Level;
use ada_lexer::Symbol;
use ada_tree::{BinaryOp, Expr, ExprKind, Span, UnaryOp, Word};

#[tactic(auto, unfolding(crate::specs::Tests::same))]
pub fn same(a: Symbol, b: Symbol) -> bool
    ensures { result ≡ tests.same a b }
{
    a == b
}

#[tactic(auto, unfolding(crate::specs::Tests::same_operator))]
fn same_operator(a: BinaryOp, b: BinaryOp) -> bool
    ensures { result ≡ tests.same_operator a b }
{
    a == b
}

/// The place of an item that is this symbol.
pub fn symbol_in(wanted: Symbol, item: Item) -> Option<Span>
    ensures { result ≡ tests.symbol wanted item }
{
    match item.kind {
        ItemKind::Symbol(symbol) => {
            if same(symbol, wanted) {
                Some(item.span)
            } else {
                None
            }
        }
        _ => None,
    }
}

/// The symbol that must come next: its place, and what stands behind it.
pub fn expect<'a>(wanted: Symbol, items: &'a [Item]) -> Result<(Span, &'a [Item]), ParseError>
    ensures tree { Gives (λ x. x.0) (λ x. x.1.now) result (token (tests.symbol wanted) items.now) }
    ensures shorter { IfOk result (λ x. length x.1.now < length items.now) }
{
    let [next, rest @ ..] = items else {
        return Err(ParseError::Syntax { at: 0 });
    };
    match symbol_in(wanted, *next) {
        Some(span) => Ok((span, rest)),
        None => Err(ParseError::Syntax {
            at: next.span.start,
        }),
    }
}

/// The identifier that must come next, and what stands behind it.
pub fn expect_word<'a>(items: &'a [Item]) -> Result<(Word, &'a [Item]), ParseError>
    ensures tree { Gives (λ x. x.0) (λ x. x.1.now) result (token tests.word items.now) }
    ensures shorter { IfOk result (λ x. length x.1.now < length items.now) }
{
    let [next, rest @ ..] = items else {
        return Err(ParseError::Syntax { at: 0 });
    };
    match next.kind {
        ItemKind::Name(name) => Ok((
            Word {
                name,
                span: next.span,
            },
            rest,
        )),
        _ => Err(ParseError::Syntax {
            at: next.span.start,
        }),
    }
}

/// `abs` or `not`.
pub fn factor_operator(kind: ItemKind) -> Option<UnaryOp>
    ensures { result ≡ tests.unary_in tests.factor_operator kind }
{
    match kind {
        ItemKind::Symbol(Symbol::Abs) => Some(UnaryOp::Abs),
        ItemKind::Symbol(Symbol::Not) => Some(UnaryOp::Not),
        _ => None,
    }
}

/// `+` or `-` before a term.
pub fn sign(kind: ItemKind) -> Option<UnaryOp>
    ensures { result ≡ tests.unary_in tests.sign kind }
{
    match kind {
        ItemKind::Symbol(Symbol::Plus) => Some(UnaryOp::Plus),
        ItemKind::Symbol(Symbol::Minus) => Some(UnaryOp::Minus),
        _ => None,
    }
}

fn logical_operator(symbol: Symbol) -> Option<BinaryOp>
    ensures { result ≡ tests.logical_operator symbol }
{
    match symbol {
        Symbol::And => Some(BinaryOp::And),
        Symbol::Or => Some(BinaryOp::Or),
        Symbol::Xor => Some(BinaryOp::Xor),
        _ => None,
    }
}

fn relational_operator(symbol: Symbol) -> Option<BinaryOp>
    ensures { result ≡ tests.relational_operator symbol }
{
    match symbol {
        Symbol::Equal => Some(BinaryOp::Equal),
        Symbol::NotEqual => Some(BinaryOp::NotEqual),
        Symbol::Less => Some(BinaryOp::Less),
        Symbol::LessEqual => Some(BinaryOp::LessEqual),
        Symbol::Greater => Some(BinaryOp::Greater),
        Symbol::GreaterEqual => Some(BinaryOp::GreaterEqual),
        _ => None,
    }
}

fn adding_operator(symbol: Symbol) -> Option<BinaryOp>
    ensures { result ≡ tests.adding_operator symbol }
{
    match symbol {
        Symbol::Plus => Some(BinaryOp::Plus),
        Symbol::Minus => Some(BinaryOp::Minus),
        _ => None,
    }
}

fn multiplying_operator(symbol: Symbol) -> Option<BinaryOp>
    ensures { result ≡ tests.multiplying_operator symbol }
{
    match symbol {
        Symbol::Star => Some(BinaryOp::Times),
        Symbol::Slash => Some(BinaryOp::Divide),
        Symbol::Mod => Some(BinaryOp::Mod),
        Symbol::Rem => Some(BinaryOp::Rem),
        _ => None,
    }
}

fn operator_at(level: Level, symbol: Symbol) -> Option<BinaryOp>
    ensures { result ≡ tests.operator_at level symbol }
{
    match level {
        Level::Logical => logical_operator(symbol),
        Level::Relation => relational_operator(symbol),
        Level::Simple => adding_operator(symbol),
        Level::Term => multiplying_operator(symbol),
        Level::Factor | Level::Primary => None,
    }
}

fn goes_on_with(last: Option<BinaryOp>, op: BinaryOp) -> bool
    ensures { result ≡ tests.goes_on_with last op }
{
    match last {
        Some(BinaryOp::And | BinaryOp::AndThen) => same_operator(op, BinaryOp::And),
        Some(BinaryOp::Or | BinaryOp::OrElse) => same_operator(op, BinaryOp::Or),
        Some(BinaryOp::Xor) => same_operator(op, BinaryOp::Xor),
        _ => true,
    }
}

fn is_relation(last: Option<BinaryOp>) -> bool
    ensures { result ≡ tests.is_relation last }
{
    match last {
        Some(
            BinaryOp::Equal
            | BinaryOp::NotEqual
            | BinaryOp::Less
            | BinaryOp::LessEqual
            | BinaryOp::Greater
            | BinaryOp::GreaterEqual,
        ) => true,
        _ => false,
    }
}

fn may_follow(level: Level, last: Option<BinaryOp>, op: BinaryOp) -> bool
    ensures { result ≡ tests.may_follow level last op }
{
    match level {
        Level::Logical => goes_on_with(last, op),
        Level::Relation => !is_relation(last),
        _ => true,
    }
}

/// The operator of a level that an item is, or begins, where it may stand behind a tree with the operator `last` or none.
pub fn operator_in(level: Level, last: Option<BinaryOp>, kind: ItemKind) -> Option<BinaryOp>
    ensures { result ≡ tests.operator_in level last kind }
{
    let ItemKind::Symbol(symbol) = kind else {
        return None;
    };
    let op = operator_at(level, symbol)?;
    if may_follow(level, last, op) {
        Some(op)
    } else {
        None
    }
}

fn is_last(op: BinaryOp, last: Option<BinaryOp>) -> bool
    ensures { result ≡ reading.is_last op last }
{
    match last {
        Some(last) => same_operator(last, op),
        None => false,
    }
}

fn short_form<'a>(
    second: Symbol,
    plain: BinaryOp,
    short: BinaryOp,
    was_plain: bool,
    was_short: bool,
    items: &'a [Item],
) -> Result<(BinaryOp, &'a [Item]), ParseError>
    ensures tree { Gives (λ x. x.0) (λ x. x.1.now) result (reading.short_form second plain short was_plain was_short items.now) }
    ensures shorter { IfOk result (λ x. length x.1.now ≤ length items.now) }
{
    if was_plain {
        return Ok((plain, items));
    }
    let [next, rest @ ..] = items else {
        return Err(ParseError::Syntax { at: 0 });
    };
    if symbol_in(second, *next).is_some() {
        return Ok((short, rest));
    }
    if was_short {
        return Err(ParseError::Syntax {
            at: next.span.start,
        });
    }
    Ok((plain, items))
}

/// The rest of an operator that begins so: `then` behind `and`, or `else` behind `or`, where it stands there.
pub fn operator_rest<'a>(
    last: Option<BinaryOp>,
    op: BinaryOp,
    items: &'a [Item],
) -> Result<(BinaryOp, &'a [Item]), ParseError>
    ensures tree { Gives (λ x. x.0) (λ x. x.1.now) result (reading.operator_rest last op items.now) }
    ensures shorter { IfOk result (λ x. length x.1.now ≤ length items.now) }
{
    match op {
        BinaryOp::And => short_form(
            Symbol::Then,
            BinaryOp::And,
            BinaryOp::AndThen,
            is_last(BinaryOp::And, last),
            is_last(BinaryOp::AndThen, last),
            items,
        ),
        BinaryOp::Or => short_form(
            Symbol::Else,
            BinaryOp::Or,
            BinaryOp::OrElse,
            is_last(BinaryOp::Or, last),
            is_last(BinaryOp::OrElse, last),
            items,
        ),
        _ => Ok((op, items)),
    }
}

/// The operator of an expression that has two operands.
pub fn last_operator(expr: &Expr) -> Option<BinaryOp>
    ensures { result ≡ trees.last_operator (plain_expr expr.now) }
{
    match &expr.kind {
        ExprKind::Binary { op, .. } => Some(*op),
        _ => None,
    }
}

/// Whether an item may begin an expression: a literal, a name, `(`, a sign, `abs` or `not`.
pub fn begins_expr(item: Item) -> bool
    ensures { result ≡ tests.begins_expr item }
{
    match item.kind {
        ItemKind::Integer(_) | ItemKind::Name(_) => true,
        ItemKind::Symbol(_) => {
            symbol_in(Symbol::LeftParen, item).is_some()
                || factor_operator(item.kind).is_some()
                || sign(item.kind).is_some()
        }
        _ => false,
    }
}
