//! Operands of statements, and what stands in the parentheses behind an entry's name (9.5).

ghost use Rattle.std.specs.Prelude.{◌≡◌, ◌<◌, ◌≤◌, ◌-◌, ◌||◌, IfOk, length};
ghost use Rattle.ada_expr_parser.specs.readers.Readers.{bind, token};
ghost use Rattle.ada_tree.specs.PlainExpr.{plain_expr};
ghost use Rattle.ada_lexer.specs.declared.symbols.Symbol.TheVariants as key;
ghost use Rattle.ada_expr_parser.specs.declared.items.ItemKind.TheVariants as item;
ghost use Rattle.ada_expr_parser.specs.Tests as tests;
ghost use Rattle.ada_expr_parser.specs.Gives.{Gives};
ghost use Rattle.ada_phrase_parser.specs.Reading as reading;
ghost use Rattle.ada_phrase_parser.specs.Views.{behind_of, is_operator};

use crate::phrases::{formals_from, read_formals};
use crate::tokens::{is_symbol, word_in};
use ada_expr_parser::{
    Item, ItemKind, ParseError, Symbol, begins_expr, expect, expect_word, read_expr,
};
use ada_tree::{Expr, Formal};
use std::alloc::Global;

/// An index, formals, both or nothing.
#[derive(Drop)]
pub struct EntryBehind {
    pub index: Option<Expr>,
    pub formals: Vec<Formal>,
}

/// An expression whose root is one level deeper.
#[tactic(auto, using(crate::proofs::Steps::steps))]
pub fn read_operand<'a>(
    alloc: Global,
    depth: u32,
    items: &'a [Item],
) -> Result<(Expr, &'a [Item]), ParseError>
    ensures tree { Gives (λ x. plain_expr x.0) (λ x. x.1.now) result (reading.operand depth items.now) }
    ensures shorter { IfOk result (λ x. length x.1.now < length items.now) }
{
    if depth > 0 {
        let (expr, _, rest) = read_expr(alloc, depth - 1, items)?;
        return Ok((expr, rest));
    }
    let [next, ..] = items else {
        return Err(ParseError::Syntax { at: 0 });
    };
    if begins_expr(*next) {
        return Err(ParseError::TooDeep {
            at: next.span.start,
        });
    }
    Err(ParseError::Syntax {
        at: next.span.start,
    })
}

/// Whether an item is an operator between operands.
pub fn is_operator(kind: ItemKind) -> bool
    ensures { result ≡ is_operator kind }
{
    match kind {
        ItemKind::Symbol(symbol) => is_infix(symbol),
        _ => false,
    }
}

fn is_infix(symbol: Symbol) -> bool
    ensures { result ≡ is_operator (item.Symbol symbol) }
{
    match symbol {
        Symbol::Star | Symbol::Slash | Symbol::Mod | Symbol::Rem | Symbol::Plus | Symbol::Minus =>
            true,
        Symbol::Equal
        | Symbol::NotEqual
        | Symbol::Less
        | Symbol::LessEqual
        | Symbol::Greater
        | Symbol::GreaterEqual => true,
        Symbol::And | Symbol::Or | Symbol::Xor => true,
        _ => false,
    }
}

/// Whether an item goes on behind a name in an expression, but for an index.
pub fn goes_on_name(item: Item) -> bool
    ensures { result ≡ reading.goes_on_name item }
{
    is_symbol(Symbol::Tick, item) || is_operator(item.kind)
}

// An index has been read: its parenthesis closes, and formals may follow.
#[tactic(auto, using(crate::proofs::Steps::steps))]
fn behind_index<'a>(
    alloc: Global,
    index: Expr,
    items: &'a [Item],
) -> Result<(EntryBehind, &'a [Item]), ParseError>
    ensures tree { Gives (λ x. behind_of x.0.index x.0.formals.items) (λ x. x.1.now) result (reading.behind_index (plain_expr index) items.now) }
    ensures shorter { IfOk result (λ x. length x.1.now < length items.now) }
{
    let (_, rest) = expect(Symbol::RightParen, items)?;
    let (formals, rest) = read_formals(alloc, rest)?;
    Ok((
        EntryBehind {
            index: Some(index),
            formals,
        },
        rest,
    ))
}

/// Whether a colon or a comma stands next: then the name before it is a formal's.
pub fn is_formal_mark(item: Item) -> bool
    ensures { result ≡ reading.is_formal_mark item }
{
    is_symbol(Symbol::Colon, item) || is_symbol(Symbol::Comma, item)
}

// Whether an item goes on behind a name that stands in parentheses.
fn goes_on_index(item: Item) -> bool
    ensures { result ≡ (reading.goes_on_name item || reading.is_symbol key.LeftParen item || reading.is_symbol key.RightParen item) }
{
    goes_on_name(item) || is_symbol(Symbol::LeftParen, item) || is_symbol(Symbol::RightParen, item)
}

// Behind `accept NAME (` where a name stands.
#[tactic(auto, using(crate::proofs::Steps::steps))]
fn behind_name<'a>(
    alloc: Global,
    depth: u32,
    items: &'a [Item],
) -> Result<(EntryBehind, &'a [Item]), ParseError>
    ensures tree { Gives (λ x. behind_of x.0.index x.0.formals.items) (λ x. x.1.now) result (bind (token tests.word) (reading.accept_name depth) items.now) }
    ensures shorter { IfOk result (λ x. length x.1.now < length items.now) }
{
    let (name, rest) = expect_word(items)?;
    let [next, ..] = rest else {
        return Err(ParseError::Syntax { at: 0 });
    };
    if is_formal_mark(*next) {
        let (formals, rest) = formals_from(alloc, name, rest)?;
        return Ok((
            EntryBehind {
                index: None,
                formals,
            },
            rest,
        ));
    }
    if depth > 0 {
        let (index, _, rest) = read_expr(alloc, depth - 1, items)?;
        return behind_index(alloc, index, rest);
    }
    if goes_on_index(*next) {
        return Err(ParseError::TooDeep {
            at: next.span.start,
        });
    }
    Err(ParseError::Syntax {
        at: next.span.start,
    })
}

/// Behind `accept NAME`: an index, formals, both or nothing.
#[tactic(auto, using(crate::proofs::Steps::steps))]
pub fn entry_behind<'a>(
    alloc: Global,
    depth: u32,
    items: &'a [Item],
) -> Result<(EntryBehind, &'a [Item]), ParseError>
    ensures tree { Gives (λ x. behind_of x.0.index x.0.formals.items) (λ x. x.1.now) result (reading.accept_behind depth items.now) }
    ensures shorter { IfOk result (λ x. length x.1.now ≤ length items.now) }
{
    let [next, rest @ ..] = items else {
        return Err(ParseError::Syntax { at: 0 });
    };

    if !is_symbol(Symbol::LeftParen, *next) {
        let formals = Vec::new(alloc);
        return Ok((
            EntryBehind {
                index: None,
                formals,
            },
            items,
        ));
    }
    let [first, ..] = rest else {
        return Err(ParseError::Syntax { at: 0 });
    };
    if word_in(*first).is_some() {
        return behind_name(alloc, depth, rest);
    }
    let (index, rest) = read_operand(alloc, depth, rest)?;
    behind_index(alloc, index, rest)
}
