//! Pieces of statements and declarations: durations, rows of names, formals.

ghost use Rattle.std.specs.Prelude.{◌≡◌, ◌<◌, ◌≤◌, IfOk, map, length, is_some};
ghost use Rattle.ada_expr_parser.specs.readers.Readers.{on, pure, refuse, token, fronted};
ghost use Rattle.ada_tree.specs.PlainStmt.{plain_formal};
ghost use Rattle.ada_lexer.specs.declared.symbols.Symbol.TheVariants as key;
ghost use Rattle.ada_expr_parser.specs.Tests as tests;
ghost use Rattle.ada_expr_parser.specs.Gives.{Gives};
ghost use Rattle.ada_phrase_parser.specs.Reading as reading;
ghost use Rattle.ada_phrase_parser.specs.Views.{delay_of};

use crate::tokens::{add, is_symbol, word_in};
use ada_expr_parser::{Item, ItemKind, ParseError, Symbol, expect, expect_word};
use ada_tree::{Formal, ParMode, Span, Word};
use std::alloc::Global;

// A duration literal that must come next, in thousandths, and what stands behind it.
fn expect_duration<'a>(items: &'a [Item]) -> Result<(u32, &'a [Item]), ParseError>
    ensures tree { Gives (λ x. x.0) (λ x. x.1.now) result (token reading.duration items.now) }
    ensures shorter { IfOk result (λ x. length x.1.now < length items.now) }
{
    let [next, rest @ ..] = items else {
        return Err(ParseError::Syntax { at: 0 });
    };
    match next.kind {
        ItemKind::Duration(thousandths) => Ok((thousandths, rest)),
        _ => Err(ParseError::Syntax {
            at: next.span.start,
        }),
    }
}

/// Behind `delay`: a duration in thousandths, and the place of its semicolon.
#[tactic(auto, using(crate::proofs::Steps::steps))]
pub fn read_delayed<'a>(items: &'a [Item]) -> Result<(u32, Span, &'a [Item]), ParseError>
    ensures tree { Gives (λ x. delay_of x.0 x.1) (λ x. x.2.now) result (reading.delayed items.now) }
    ensures shorter { IfOk result (λ x. length x.2.now < length items.now) }
{
    let (thousandths, rest) = expect_duration(items)?;
    let (close, rest) = expect(Symbol::Semicolon, rest)?;
    Ok((thousandths, close, rest))
}

// A name behind this symbol.
#[tactic(auto, using(crate::proofs::Steps::steps))]
fn next_word<'a>(between: Symbol, items: &'a [Item]) -> Result<(Word, &'a [Item]), ParseError>
    ensures tree { Gives (λ x. x.0) (λ x. x.1.now) result (reading.key_then between (token tests.word) items.now) }
    ensures shorter { IfOk result (λ x. length x.1.now < length items.now) }
{
    let (_, rest) = expect(between, items)?;
    expect_word(rest)
}

// Further names, each behind this symbol, at the end of the list.
#[tactic(auto, using(crate::proofs::Steps::steps))]
fn words_onto<'a>(
    between: Symbol,
    list: &mut Vec<Word>,
    items: &'a [Item],
) -> Result<&'a [Item], ParseError>
    ensures tree { Gives (λ x. list.new.items) (λ x. x.now) result (fronted list.old.items (reading.more_behind between (token tests.word) items.now)) }
    ensures shorter { IfOk result (λ x. length x.now ≤ length items.now) }
{
    let mut rest = items;
    'words: loop {
        let [next, ..] = rest else {
            return Err(ParseError::Syntax { at: 0 });
        };
        if !is_symbol(between, *next) {
            return Ok(rest);
        }
        let (word, behind) = next_word(between, rest)?;
        add(list, word)?;
        rest = behind;
    }
}

/// Names with this symbol between them, one at least.
#[tactic(auto, using(crate::proofs::Steps::steps))]
pub fn read_words<'a>(
    alloc: Global,
    between: Symbol,
    items: &'a [Item],
) -> Result<(Vec<Word>, &'a [Item]), ParseError>
    ensures tree { Gives (λ x. x.0.items) (λ x. x.1.now) result (reading.separated between (token tests.word) items.now) }
    ensures shorter { IfOk result (λ x. length x.1.now < length items.now) }
{
    let (first, rest) = expect_word(items)?;
    let mut list = Vec::new(alloc);
    add(&mut list, first)?;
    let rest = words_onto(between, &mut list, rest)?;
    Ok((list, rest))
}

// The mode by whether `out` stands next.
fn mode_by_out<'a>(
    there: ParMode,
    missing: ParMode,
    items: &'a [Item],
) -> Result<(ParMode, &'a [Item]), ParseError>
    ensures tree { Gives (λ x. x.0) (λ x. x.1.now) result (on (tests.symbol key.Out) (λ at. pure there) (pure missing) items.now) }
    ensures shorter { IfOk result (λ x. length x.1.now ≤ length items.now) }
{
    let [next, rest @ ..] = items else {
        return Err(ParseError::Syntax { at: 0 });
    };
    if is_symbol(Symbol::Out, *next) {
        return Ok((there, rest));
    }
    Ok((missing, items))
}

// `in`, `out`, `in out` or nothing.
#[tactic(auto, using(crate::proofs::Steps::steps))]
fn read_mode<'a>(items: &'a [Item]) -> Result<(ParMode, &'a [Item]), ParseError>
    ensures tree { Gives (λ x. x.0) (λ x. x.1.now) result (reading.mode items.now) }
    ensures shorter { IfOk result (λ x. length x.1.now ≤ length items.now) }
{
    let [next, rest @ ..] = items else {
        return Err(ParseError::Syntax { at: 0 });
    };
    if is_symbol(Symbol::In, *next) {
        return mode_by_out(ParMode::Both, ParMode::Take, rest);
    }
    mode_by_out(ParMode::Give, ParMode::Take, items)
}

// Parameters of one mode and one type, behind their first name.
#[tactic(auto, using(crate::proofs::Steps::steps))]
fn formal_from<'a>(
    alloc: Global,
    first: Word,
    items: &'a [Item],
) -> Result<(Formal, &'a [Item]), ParseError>
    ensures tree { Gives (λ x. plain_formal x.0) (λ x. x.1.now) result (reading.formal_from first items.now) }
    ensures shorter { IfOk result (λ x. length x.1.now < length items.now) }
{
    let mut names = Vec::new(alloc);
    add(&mut names, first)?;
    let rest = words_onto(Symbol::Comma, &mut names, items)?;
    let (_, rest) = expect(Symbol::Colon, rest)?;
    let (mode, rest) = read_mode(rest)?;
    let (mark, rest) = expect_word(rest)?;
    Ok((Formal { names, mode, mark }, rest))
}

// Parameters of one mode and one type behind a semicolon.
#[tactic(auto, using(crate::proofs::Steps::steps))]
fn next_formal<'a>(alloc: Global, items: &'a [Item]) -> Result<(Formal, &'a [Item]), ParseError>
    ensures tree { Gives (λ x. plain_formal x.0) (λ x. x.1.now) result (reading.key_then key.Semicolon reading.formal items.now) }
    ensures shorter { IfOk result (λ x. length x.1.now < length items.now) }
{
    let (_, rest) = expect(Symbol::Semicolon, items)?;
    let (first, rest) = expect_word(rest)?;
    formal_from(alloc, first, rest)
}

// Further parameters, each behind a semicolon, at the end of the list.
#[tactic(auto, using(crate::proofs::Steps::steps))]
fn formals_onto<'a>(
    alloc: Global,
    list: &mut Vec<Formal>,
    items: &'a [Item],
) -> Result<&'a [Item], ParseError>
    ensures tree { Gives (λ x. map plain_formal list.new.items) (λ x. x.now) result (fronted (map plain_formal list.old.items) (reading.more_behind key.Semicolon reading.formal items.now)) }
    ensures shorter { IfOk result (λ x. length x.now ≤ length items.now) }
{
    let mut rest = items;
    'formals: loop {
        let [next, ..] = rest else {
            return Err(ParseError::Syntax { at: 0 });
        };
        if !is_symbol(Symbol::Semicolon, *next) {
            return Ok(rest);
        }
        let (formal, behind) = next_formal(alloc, rest)?;
        add(list, formal)?;
        rest = behind;
    }
}

/// Parameters in parentheses, behind their first name.
#[tactic(auto, using(crate::proofs::Steps::steps))]
pub fn formals_from<'a>(
    alloc: Global,
    first: Word,
    items: &'a [Item],
) -> Result<(Vec<Formal>, &'a [Item]), ParseError>
    ensures tree { Gives (λ x. map plain_formal x.0.items) (λ x. x.1.now) result (reading.formals_from first items.now) }
    ensures shorter { IfOk result (λ x. length x.1.now < length items.now) }
{
    let (formal, rest) = formal_from(alloc, first, items)?;
    let mut list = Vec::new(alloc);
    add(&mut list, formal)?;
    let rest = formals_onto(alloc, &mut list, rest)?;
    let (_, rest) = expect(Symbol::RightParen, rest)?;
    Ok((list, rest))
}

/// Parameters in parentheses, or nothing.
#[tactic(auto, using(crate::proofs::Steps::steps))]
pub fn read_formals<'a>(
    alloc: Global,
    items: &'a [Item],
) -> Result<(Vec<Formal>, &'a [Item]), ParseError>
    ensures tree { Gives (λ x. map plain_formal x.0.items) (λ x. x.1.now) result (reading.formals items.now) }
    ensures shorter { IfOk result (λ x. length x.1.now ≤ length items.now) }
{
    let [next, rest @ ..] = items else {
        return Err(ParseError::Syntax { at: 0 });
    };
    if !is_symbol(Symbol::LeftParen, *next) {
        return Ok((Vec::new(alloc), items));
    }
    let (first, rest) = expect_word(rest)?;
    formals_from(alloc, first, rest)
}

/// Whether an item is this name once more.
pub fn is_again(name: Word, item: Item) -> bool
    ensures { result ≡ is_some (reading.again name item) }
{
    match word_in(item) {
        Some(word) => word.name.0 == name.name.0,
        None => false,
    }
}

/// Behind the name that must stand here once more.
pub fn expect_again<'a>(name: Word, items: &'a [Item]) -> Result<&'a [Item], ParseError>
    ensures tree { Gives (λ x. name) (λ x. x.now) result (on (reading.again name) (λ w. pure name) refuse items.now) }
    ensures shorter { IfOk result (λ x. length x.now < length items.now) }
{
    let [next, rest @ ..] = items else {
        return Err(ParseError::Syntax { at: 0 });
    };
    if is_again(name, *next) {
        return Ok(rest);
    }
    Err(ParseError::Syntax {
        at: next.span.start,
    })
}
