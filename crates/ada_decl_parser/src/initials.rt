//! Shapes of objects, and initial values (3.2.1, 3.6, 4.3.2). Each reader takes how many levels may stand below the root of
//! each expression.

ghost use Rattle.std.specs.Prelude.{◌≡◌, ◌<◌, ◌≤◌, IfOk, IfErr, map, length};
ghost use Rattle.ada_expr_parser.specs.readers.Readers.{fronted};
ghost use Rattle.ada_tree.specs.PlainExpr.{plain_expr};
ghost use Rattle.ada_tree.specs.PlainDecl.{plain_shape, plain_init};
ghost use Rattle.ada_lexer.specs.declared.symbols.Symbol.TheVariants as key;
ghost use Rattle.ada_expr_parser.specs.declared.errors.ParseError.TheVariants.{Memory};
ghost use Rattle.ada_expr_parser.specs.Trees.{levels, in_parens};
ghost use Rattle.ada_expr_parser.specs.Parts as parts;
ghost use Rattle.ada_expr_parser.specs.Gives.{Gives};
ghost use Rattle.ada_phrase_parser.specs.Reading as reading;
ghost use Rattle.ada_decl_parser.specs.inner.ReadingDeclarations as declarations;

use ada_expr_parser::joining::with;
use ada_expr_parser::{
    Item, ParseError, Symbol, expect, read_behind, read_drange, read_expr, read_subind, symbol_in,
};
use ada_phrase_parser::{add, from_to, is_symbol};
use ada_tree::{Expr, ExprKind, Init, Shape, Span};
use std::alloc::Global;

/// `subind | array ( drange ) of subind`
#[tactic(auto, using(crate::proofs::Steps::steps))]
pub(crate) fn read_shape<'a>(
    alloc: Global,
    depth: u32,
    items: &'a [Item],
) -> Result<(Shape, &'a [Item]), ParseError>
    ensures tree { Gives (λ x. plain_shape x.0) (λ x. x.1.now) result (declarations.shape depth items.now) }
    ensures shorter { IfOk result (λ x. length x.1.now < length items.now) }
{
    let [next, rest @ ..] = items else {
        return Err(ParseError::Syntax { at: 0 });
    };
    if !is_symbol(Symbol::Array, *next) {
        let (subind, rest) = read_subind(alloc, depth, items)?;
        return Ok((Shape::Plain(subind), rest));
    }
    let (_, rest) = expect(Symbol::LeftParen, rest)?;
    let (index, rest) = read_drange(alloc, depth, rest)?;
    let (index, (_, rest)) = with(index, expect(Symbol::RightParen, rest))?;
    let (index, (_, rest)) = with(index, expect(Symbol::Of, rest))?;
    let (index, (part, rest)) = with(index, read_subind(alloc, depth, rest))?;
    Ok((Shape::ConstrainedArray { index, part }, rest))
}

// An expression in parentheses.
fn enclosed(alloc: Global, lead: Span, part: Expr, close: Span) -> Result<Expr, ParseError>
    ensures node { IfOk result (λ node. plain_expr node ≡ in_parens lead (plain_expr part) close) }
    ensures cause { IfErr result (λ e. e ≡ Memory) }
{
    let span = from_to(lead, close);
    match Box::new(alloc, part) {
        Ok(part) => Ok(Expr {
            kind: ExprKind::Paren(part),
            span,
        }),
        Err(_) => Err(ParseError::Memory),
    }
}

// Behind `( expression` and what was no comma: the parentheses are those of an expression, which may go on.
#[tactic(auto, using(crate::proofs::Steps::steps))]
fn parens_rest<'a>(
    alloc: Global,
    depth: u32,
    lead: Span,
    part: Expr,
    height: u32,
    items: &'a [Item],
) -> Result<(Init, &'a [Item]), ParseError>
    requires height { height ≡ levels (plain_expr part) }
    ensures tree { Gives (λ x. plain_init x.0) (λ x. x.1.now) result (declarations.parens_rest depth lead (plain_expr part) items.now) }
    ensures shorter { IfOk result (λ x. length x.1.now < length items.now) }
{
    if height < depth {
        let (close, rest) = expect(Symbol::RightParen, items)?;
        let first = enclosed(alloc, lead, part, close)?;
        let (whole, _, rest) = read_behind(alloc, depth, first, height + 1, rest)?;
        return Ok((Init::One(whole), rest));
    }
    let [next, ..] = items else {
        return Err(ParseError::Syntax { at: 0 });
    };
    if is_symbol(Symbol::RightParen, *next) {
        return Err(ParseError::TooDeep {
            at: next.span.start,
        });
    }
    Err(ParseError::Syntax {
        at: next.span.start,
    })
}

// An expression behind a comma.
#[tactic(auto, using(crate::proofs::Steps::steps))]
fn next_part<'a>(
    alloc: Global,
    depth: u32,
    items: &'a [Item],
) -> Result<(Expr, &'a [Item]), ParseError>
    ensures tree { Gives (λ x. plain_expr x.0) (λ x. x.1.now) result (reading.key_then key.Comma (parts.expression depth) items.now) }
    ensures shorter { IfOk result (λ x. length x.1.now < length items.now) }
{
    let (_, rest) = expect(Symbol::Comma, items)?;
    let (part, _, rest) = read_expr(alloc, depth, rest)?;
    Ok((part, rest))
}

// Whether an item is a comma.
fn is_comma(item: Item) -> bool
    ensures { result ≡ reading.is_symbol key.Comma item }
{
    is_symbol(Symbol::Comma, item)
}

// Further expressions, each behind a comma, at the end of the list.
#[tactic(auto, using(crate::proofs::Steps::steps))]
fn parts_onto<'a>(
    alloc: Global,
    depth: u32,
    list: &mut Vec<Expr>,
    items: &'a [Item],
) -> Result<&'a [Item], ParseError>
    ensures tree { Gives (λ x. map plain_expr list.new.items) (λ x. x.now) result (fronted (map plain_expr list.old.items) (reading.more_behind key.Comma (parts.expression depth) items.now)) }
    ensures shorter { IfOk result (λ x. length x.now ≤ length items.now) }
{
    let mut rest = items;
    'parts: loop {
        let [next, ..] = rest else {
            return Err(ParseError::Syntax { at: 0 });
        };
        if !is_comma(*next) {
            return Ok(rest);
        }
        let (part, behind) = next_part(alloc, depth, rest)?;
        add(list, part)?;
        rest = behind;
    }
}

// Behind `( expression`: further expressions, or the end of an expression in parentheses.
#[tactic(auto, using(crate::proofs::Steps::steps))]
fn list_or_parens<'a>(
    alloc: Global,
    depth: u32,
    lead: Span,
    first: Expr,
    height: u32,
    items: &'a [Item],
) -> Result<(Init, &'a [Item]), ParseError>
    requires height { height ≡ levels (plain_expr first) }
    ensures tree { Gives (λ x. plain_init x.0) (λ x. x.1.now) result (declarations.list_or_parens depth lead (plain_expr first) items.now) }
    ensures shorter { IfOk result (λ x. length x.1.now < length items.now) }
{
    let [next, ..] = items else {
        return Err(ParseError::Syntax { at: 0 });
    };
    if !is_symbol(Symbol::Comma, *next) {
        return parens_rest(alloc, depth, lead, first, height, items);
    }
    let mut parts = Vec::new(alloc);
    add(&mut parts, first)?;
    let rest = parts_onto(alloc, depth, &mut parts, items)?;
    let (close, rest) = expect(Symbol::RightParen, rest)?;
    let span = from_to(lead, close);
    Ok((Init::List { parts, span }, rest))
}

// Behind `( others`.
#[tactic(auto, using(crate::proofs::Steps::steps))]
fn others_init<'a>(
    alloc: Global,
    depth: u32,
    lead: Span,
    items: &'a [Item],
) -> Result<(Init, &'a [Item]), ParseError>
    ensures tree { Gives (λ x. plain_init x.0) (λ x. x.1.now) result (declarations.others_init depth lead items.now) }
    ensures shorter { IfOk result (λ x. length x.1.now < length items.now) }
{
    let (_, rest) = expect(Symbol::Arrow, items)?;
    let (part, _, rest) = read_expr(alloc, depth, rest)?;
    let (close, rest) = expect(Symbol::RightParen, rest)?;
    let span = from_to(lead, close);
    Ok((Init::Others { part, span }, rest))
}

/// An initial value.
#[tactic(auto, using(crate::proofs::Steps::steps))]
pub(crate) fn read_init<'a>(
    alloc: Global,
    depth: u32,
    items: &'a [Item],
) -> Result<(Init, &'a [Item]), ParseError>
    ensures tree { Gives (λ x. plain_init x.0) (λ x. x.1.now) result (declarations.init depth items.now) }
    ensures shorter { IfOk result (λ x. length x.1.now < length items.now) }
{
    let [next, rest @ ..] = items else {
        return Err(ParseError::Syntax { at: 0 });
    };
    let Some(lead) = symbol_in(Symbol::LeftParen, *next) else {
        let (value, _, rest) = read_expr(alloc, depth, items)?;
        return Ok((Init::One(value), rest));
    };
    let [after, behind @ ..] = rest else {
        return Err(ParseError::Syntax { at: 0 });
    };
    if is_symbol(Symbol::Others, *after) {
        return others_init(alloc, depth, lead, behind);
    }
    let (first, height, rest) = read_expr(alloc, depth, rest)?;
    list_or_parens(alloc, depth, lead, first, height, rest)
}
