//! What begins a statement or a loop, and what stands in front of the statements of loops and alternatives (5.1, 5.5, 9.7.1).

ghost use Rattle.std.specs.Prelude.{◌≡◌, ◌<◌, ◌≤◌, IfOk, option_map, length};
ghost use Rattle.ada_tree.specs.PlainStmt.{plain_scheme, plain_alt_kind};
ghost use Rattle.ada_expr_parser.specs.Gives.{Gives};
ghost use Rattle.ada_compound_parts.specs.inner.ReadingHeads as front;

use ada_expr_parser::joining::with;
use ada_expr_parser::{Item, ParseError, Symbol, expect, expect_word, read_drange, read_expr};
use ada_phrase_parser::{is_symbol, stands, word_in};
use ada_tree::{AltKind, Expr, Scheme, Span, Word};
use std::alloc::Global;

/// Whether an item begins a statement.
pub fn begins_stmt(item: Item) -> bool
    ensures { result ≡ front.begins_stmt item }
{
    word_in(item).is_some()
        || is_symbol(Symbol::Null, item)
        || is_symbol(Symbol::Delay, item)
        || is_symbol(Symbol::Exit, item)
        || is_symbol(Symbol::Raise, item)
        || is_symbol(Symbol::Abort, item)
        || is_symbol(Symbol::Accept, item)
        || is_symbol(Symbol::Select, item)
        || is_symbol(Symbol::If, item)
        || is_symbol(Symbol::Case, item)
        || is_symbol(Symbol::Begin, item)
        || is_symbol(Symbol::While, item)
        || is_symbol(Symbol::For, item)
        || is_symbol(Symbol::Loop, item)
}

/// Whether an item begins a loop.
pub fn begins_loop(item: Item) -> bool
    ensures { result ≡ front.begins_loop item }
{
    is_symbol(Symbol::While, item) || is_symbol(Symbol::For, item) || is_symbol(Symbol::Loop, item)
}

// Behind `while`: a condition and `loop`.
#[tactic(auto, using(crate::proofs::Steps::steps))]
fn while_scheme<'a>(
    alloc: Global,
    depth: u32,
    items: &'a [Item],
) -> Result<(Option<Scheme>, &'a [Item]), ParseError>
    ensures tree { Gives (λ x. option_map plain_scheme x.0) (λ x. x.1.now) result (front.while_scheme depth items.now) }
    ensures shorter { IfOk result (λ x. length x.1.now < length items.now) }
{
    let (test, _, rest) = read_expr(alloc, depth, items)?;
    let (test, (_, rest)) = with(test, expect(Symbol::Loop, rest))?;
    Ok((Some(Scheme::While(test)), rest))
}

// Behind `for NAME in` and `reverse` or nothing: a range and `loop`.
#[tactic(auto, using(crate::proofs::Steps::steps))]
fn range_scheme<'a>(
    alloc: Global,
    depth: u32,
    name: Word,
    reverse: bool,
    items: &'a [Item],
) -> Result<(Option<Scheme>, &'a [Item]), ParseError>
    ensures tree { Gives (λ x. option_map plain_scheme x.0) (λ x. x.1.now) result (front.range_scheme depth name reverse items.now) }
    ensures shorter { IfOk result (λ x. length x.1.now < length items.now) }
{
    let (range, rest) = read_drange(alloc, depth, items)?;
    let (range, (_, rest)) = with(range, expect(Symbol::Loop, rest))?;
    let scheme = Scheme::For {
        name,
        reverse,
        range,
    };
    Ok((Some(scheme), rest))
}

// Behind `for`, up to `loop`.
#[tactic(auto, using(crate::proofs::Steps::steps))]
fn for_scheme<'a>(
    alloc: Global,
    depth: u32,
    items: &'a [Item],
) -> Result<(Option<Scheme>, &'a [Item]), ParseError>
    ensures tree { Gives (λ x. option_map plain_scheme x.0) (λ x. x.1.now) result (front.for_scheme depth items.now) }
    ensures shorter { IfOk result (λ x. length x.1.now < length items.now) }
{
    let (name, rest) = expect_word(items)?;
    let (_, items) = expect(Symbol::In, rest)?;
    let [next, rest @ ..] = items else {
        return Err(ParseError::Syntax { at: 0 });
    };
    if stands(Symbol::Reverse, *next) {
        return range_scheme(alloc, depth, name, true, rest);
    }
    range_scheme(alloc, depth, name, false, items)
}

/// From the first word of a loop to the word `loop`: how the loop goes on, if that is told.
#[tactic(auto, using(crate::proofs::Steps::steps))]
pub fn loop_scheme<'a>(
    alloc: Global,
    depth: u32,
    items: &'a [Item],
) -> Result<(Option<Scheme>, &'a [Item]), ParseError>
    ensures tree { Gives (λ x. option_map plain_scheme x.0) (λ x. x.1.now) result (front.loop_scheme depth items.now) }
    ensures shorter { IfOk result (λ x. length x.1.now < length items.now) }
{
    let [next, rest @ ..] = items else {
        return Err(ParseError::Syntax { at: 0 });
    };
    if stands(Symbol::While, *next) {
        return while_scheme(alloc, depth, rest);
    }
    if stands(Symbol::For, *next) {
        return for_scheme(alloc, depth, rest);
    }
    if stands(Symbol::Loop, *next) {
        return Ok((None, rest));
    }
    Err(ParseError::Syntax {
        at: next.span.start,
    })
}

/// The guard of an alternative with its arrow, and where it begins; or neither.
#[tactic(auto, using(crate::proofs::Steps::steps))]
pub fn read_guard<'a>(
    alloc: Global,
    depth: u32,
    items: &'a [Item],
) -> Result<(Option<Expr>, Option<Span>, &'a [Item]), ParseError>
    ensures tree { Gives (λ x. front.guard_of x.0 x.1) (λ x. x.2.now) result (front.guard depth items.now) }
    ensures shorter { IfOk result (λ x. length x.2.now ≤ length items.now) }
{
    let [next, rest @ ..] = items else {
        return Err(ParseError::Syntax { at: 0 });
    };
    if !stands(Symbol::When, *next) {
        return Ok((None, None, items));
    }
    if depth == 0 {
        return Err(ParseError::TooDeep {
            at: next.span.start,
        });
    }
    let (test, _, rest) = read_expr(alloc, depth - 1, rest)?;
    let (test, (_, rest)) = with(test, expect(Symbol::Arrow, rest))?;
    Ok((Some(test), Some(next.span), rest))
}

/// `terminate ;`: the kind of an alternative, where it begins, and where it ends.
#[tactic(auto, using(crate::proofs::Steps::steps))]
pub fn terminate_kind<'a>(
    items: &'a [Item],
) -> Result<(AltKind, Span, Span, &'a [Item]), ParseError>
    ensures tree { Gives (λ x. front.kind_of (plain_alt_kind x.0) x.1 x.2) (λ x. x.3.now) result (front.terminating items.now) }
    ensures shorter { IfOk result (λ x. length x.3.now < length items.now) }
{
    let (first, rest) = expect(Symbol::Terminate, items)?;
    let (last, rest) = expect(Symbol::Semicolon, rest)?;
    Ok((AltKind::Terminate, first, last, rest))
}
