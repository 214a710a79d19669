//! Types and subtypes (3.3.2, 3.5.1, 3.6), and instances of INTEGER_IO (12.3). Each reader takes how many levels may stand
//! below the root of each expression.

ghost use Rattle.std.specs.Prelude.{◌<◌, codes, IfOk, length};
ghost use Rattle.ada_expr_parser.specs.readers.Readers.{bind, token};
ghost use Rattle.ada_tree.specs.PlainDecl.{plain_decl, DEnumeration, DArray, DIntIo};
ghost use Rattle.ada_lexer.specs.declared.symbols.Symbol.TheVariants as key;
ghost use Rattle.ada_expr_parser.specs.Tests as tests;
ghost use Rattle.ada_expr_parser.specs.Trees.{from_to};
ghost use Rattle.ada_expr_parser.specs.Gives.{Gives};
ghost use Rattle.ada_phrase_parser.specs.Reading as reading;
ghost use Rattle.ada_decl_parser.specs.inner.ReadingDeclarations as declarations;

use ada_expr_parser::joining::with;
use ada_expr_parser::{Item, ParseError, Symbol, expect, read_drange, read_subind};
use ada_phrase_parser::{expect_id, from_to, is_id, is_symbol, read_words};
use ada_tree::{Decl, DeclKind, Span, Word};
use std::alloc::Global;

// The ids of the predefined names of an instance.
const INTEGER: u32 = 0;

const TEXT_IO: u32 = 12;

const INTEGER_IO: u32 = 13;

/// Behind `type NAME is`.
#[tactic(auto, using(crate::proofs::Steps::steps))]
pub fn type_rest<'a>(
    alloc: Global,
    depth: u32,
    lead: Span,
    name: Word,
    items: &'a [Item],
) -> Result<(Decl, &'a [Item]), ParseError>
    ensures tree { Gives (λ x. plain_decl x.0) (λ x. x.1.now) result (declarations.type_rest depth lead name items.now) }
    ensures shorter { IfOk result (λ x. length x.1.now < length items.now) }
{
    let [next, rest @ ..] = items else {
        return Err(ParseError::Syntax { at: 0 });
    };
    if is_symbol(Symbol::LeftParen, *next) {
        return enumeration(alloc, lead, name, rest);
    }
    if !is_symbol(Symbol::Array, *next) {
        return Err(ParseError::Syntax {
            at: next.span.start,
        });
    }
    array(alloc, depth, lead, name, rest)
}

// Behind `type NAME is array`.
#[tactic(auto, using(crate::proofs::Steps::steps))]
fn array<'a>(
    alloc: Global,
    depth: u32,
    lead: Span,
    name: Word,
    items: &'a [Item],
) -> Result<(Decl, &'a [Item]), ParseError>
    ensures tree { Gives (λ x. plain_decl x.0) (λ x. x.1.now) result (declarations.array_then depth (λ r x. reading.closed (λ close. DArray name r x (from_to lead close))) items.now) }
    ensures shorter { IfOk result (λ x. length x.1.now < length items.now) }
{
    let (_, rest) = expect(Symbol::LeftParen, items)?;
    let (index, rest) = read_drange(alloc, depth, rest)?;
    let (index, (_, rest)) = with(index, expect(Symbol::RightParen, rest))?;
    let (index, (_, rest)) = with(index, expect(Symbol::Of, rest))?;
    let (index, (part, rest)) = with(index, read_subind(alloc, depth, rest))?;
    let ((index, part), (close, rest)) = with((index, part), expect(Symbol::Semicolon, rest))?;
    let span = from_to(lead, close);
    Ok((
        Decl {
            kind: DeclKind::Array { name, index, part },
            span,
        },
        rest,
    ))
}

// Behind `type NAME is (`.
#[tactic(auto, using(crate::proofs::Steps::steps))]
fn enumeration<'a>(
    alloc: Global,
    lead: Span,
    name: Word,
    items: &'a [Item],
) -> Result<(Decl, &'a [Item]), ParseError>
    ensures tree { Gives (λ x. plain_decl x.0) (λ x. x.1.now) result (bind (reading.separated key.Comma (token tests.word)) (λ ws. reading.key_then key.RightParen (reading.closed (λ close. DEnumeration name ws (from_to lead close)))) items.now) }
    ensures shorter { IfOk result (λ x. length x.1.now < length items.now) }
{
    let (literals, rest) = read_words(alloc, Symbol::Comma, items)?;
    let (_, rest) = expect(Symbol::RightParen, rest)?;
    let (close, rest) = expect(Symbol::Semicolon, rest)?;
    let span = from_to(lead, close);
    Ok((
        Decl {
            kind: DeclKind::Enumeration { name, literals },
            span,
        },
        rest,
    ))
}

/// Behind `subtype NAME is`.
#[tactic(auto, using(crate::proofs::Steps::steps))]
pub fn subtype_rest<'a>(
    alloc: Global,
    depth: u32,
    lead: Span,
    name: Word,
    items: &'a [Item],
) -> Result<(Decl, &'a [Item]), ParseError>
    ensures tree { Gives (λ x. plain_decl x.0) (λ x. x.1.now) result (declarations.subtype_rest depth lead name items.now) }
    ensures shorter { IfOk result (λ x. length x.1.now < length items.now) }
{
    let (base, rest) = read_subind(alloc, depth, items)?;
    let (close, rest) = expect(Symbol::Semicolon, rest)?;
    let span = from_to(lead, close);
    Ok((
        Decl {
            kind: DeclKind::Subtype { name, base },
            span,
        },
        rest,
    ))
}

// The use clause of an instance, behind `use`.
#[tactic(auto, using(crate::proofs::Steps::steps))]
fn used<'a>(lead: Span, name: Word, items: &'a [Item]) -> Result<(Decl, &'a [Item]), ParseError>
    ensures tree { Gives (λ x. plain_decl x.0) (λ x. x.1.now) result (bind (token (reading.with_id name.name.0)) (λ same. reading.closed (λ close. DIntIo name (from_to lead close))) items.now) }
    ensures shorter { IfOk result (λ x. length x.1.now < length items.now) }
{
    let (_, rest) = expect_id(name.name.0, items)?;
    let (close, rest) = expect(Symbol::Semicolon, rest)?;
    let span = from_to(lead, close);
    Ok((
        Decl {
            kind: DeclKind::IntIo { name },
            span,
        },
        rest,
    ))
}

// Behind the parenthesis of INTEGER_IO.
#[tactic(auto, using(crate::proofs::Steps::steps))]
fn of_integer<'a>(
    lead: Span,
    name: Word,
    items: &'a [Item],
) -> Result<(Decl, &'a [Item]), ParseError>
    ensures tree { Gives (λ x. plain_decl x.0) (λ x. x.1.now) result (reading.predefined_then (codes "INTEGER") (reading.key_then key.RightParen (reading.key_then key.Semicolon (reading.key_then key.Use (bind (token (reading.with_id name.name.0)) (λ same. reading.closed (λ close. DIntIo name (from_to lead close))))))) items.now) }
    ensures shorter { IfOk result (λ x. length x.1.now < length items.now) }
{
    let (_, rest) = expect_id(INTEGER, items)?;
    let (_, rest) = expect(Symbol::RightParen, rest)?;
    let (_, rest) = expect(Symbol::Semicolon, rest)?;
    let (_, rest) = expect(Symbol::Use, rest)?;
    used(lead, name, rest)
}

// Behind `new` and TEXT_IO, or without it.
#[tactic(auto, using(crate::proofs::Steps::steps))]
fn instance_rest<'a>(
    lead: Span,
    name: Word,
    items: &'a [Item],
) -> Result<(Decl, &'a [Item]), ParseError>
    ensures tree { Gives (λ x. plain_decl x.0) (λ x. x.1.now) result (declarations.instance_rest lead name items.now) }
    ensures shorter { IfOk result (λ x. length x.1.now < length items.now) }
{
    let (_, rest) = expect_id(INTEGER_IO, items)?;
    let (_, rest) = expect(Symbol::LeftParen, rest)?;
    of_integer(lead, name, rest)
}

/// Behind `package NAME is`.
#[tactic(auto, using(crate::proofs::Steps::steps))]
pub fn read_instance<'a>(
    lead: Span,
    name: Word,
    items: &'a [Item],
) -> Result<(Decl, &'a [Item]), ParseError>
    ensures tree { Gives (λ x. plain_decl x.0) (λ x. x.1.now) result (declarations.instance lead name items.now) }
    ensures shorter { IfOk result (λ x. length x.1.now < length items.now) }
{
    let (_, items) = expect(Symbol::New, items)?;
    let [next, rest @ ..] = items else {
        return Err(ParseError::Syntax { at: 0 });
    };
    if !is_id(TEXT_IO, *next) {
        return instance_rest(lead, name, items);
    }
    let (_, rest) = expect(Symbol::Dot, rest)?;
    instance_rest(lead, name, rest)
}
