//! Declarations that begin with names: objects, numbers and exceptions (3.2, 11.1). Each reader takes how many levels may
//! stand below the root of each expression.

ghost use Rattle.std.specs.Prelude.{◌<◌, IfOk, option_map, length};
ghost use Rattle.ada_expr_parser.specs.readers.Readers.{bind, token};
ghost use Rattle.ada_tree.specs.PlainExpr.{plain_expr};
ghost use Rattle.ada_tree.specs.PlainDecl.{plain_decl, plain_shape, plain_init, DNumber, DObject, DException};
ghost use Rattle.ada_lexer.specs.declared.symbols.Symbol.TheVariants as key;
ghost use Rattle.ada_expr_parser.specs.Tests as tests;
ghost use Rattle.ada_expr_parser.specs.Trees.{from_to};
ghost use Rattle.ada_expr_parser.specs.Gives.{Gives};
ghost use Rattle.ada_phrase_parser.specs.Reading as reading;
ghost use Rattle.ada_decl_parser.specs.inner.ReadingDeclarations as declarations;
ghost use Rattle.ada_decl_parser.specs.inner.DeclViews as views;

use crate::initials::{read_init, read_shape};
use ada_expr_parser::joining::with;
use ada_expr_parser::{Item, ParseError, Symbol, expect, read_expr};
use ada_phrase_parser::{from_to, is_symbol, read_words};
use ada_tree::{Decl, DeclKind, Expr, Init, Shape, Span, Word};
use std::alloc::Global;

// The semicolon of an object.
#[tactic(auto, using(crate::proofs::Steps::steps))]
fn object_close<'a>(
    names: Vec<Word>,
    constant: bool,
    shape: Shape,
    init: Option<Init>,
    lead: Span,
    items: &'a [Item],
) -> Result<(Decl, &'a [Item]), ParseError>
    ensures tree { Gives (λ x. plain_decl x.0) (λ x. x.1.now) result (reading.closed (λ close. DObject names.items constant (plain_shape shape) (option_map plain_init init) (from_to lead close)) items.now) }
    ensures shorter { IfOk result (λ x. length x.1.now < length items.now) }
{
    let ((shape, init), (close, rest)) = with((shape, init), expect(Symbol::Semicolon, items))?;
    let span = from_to(lead, close);
    Ok((
        Decl {
            kind: DeclKind::Object {
                names,
                constant,
                shape,
                init,
            },
            span,
        },
        rest,
    ))
}

// A variable of these names, behind the colon.
#[tactic(auto, using(crate::proofs::Steps::steps))]
fn variable_rest<'a>(
    alloc: Global,
    depth: u32,
    names: Vec<Word>,
    lead: Span,
    items: &'a [Item],
) -> Result<(Decl, &'a [Item]), ParseError>
    ensures tree { Gives (λ x. plain_decl x.0) (λ x. x.1.now) result (views.variable_of depth names.items lead items.now) }
    ensures shorter { IfOk result (λ x. length x.1.now < length items.now) }
{
    let (shape, items) = read_shape(alloc, depth, items)?;
    let [next, rest @ ..] = items else {
        return Err(ParseError::Syntax { at: 0 });
    };
    if !is_symbol(Symbol::Becomes, *next) {
        return object_close(names, false, shape, None, lead, items);
    }
    let (shape, (init, rest)) = with(shape, read_init(alloc, depth, rest))?;
    object_close(names, false, shape, Some(init), lead, rest)
}

// A constant of these names, behind `constant`.
#[tactic(auto, using(crate::proofs::Steps::steps))]
fn constant_rest<'a>(
    alloc: Global,
    depth: u32,
    names: Vec<Word>,
    lead: Span,
    items: &'a [Item],
) -> Result<(Decl, &'a [Item]), ParseError>
    ensures tree { Gives (λ x. plain_decl x.0) (λ x. x.1.now) result (views.constant_of depth names.items lead items.now) }
    ensures shorter { IfOk result (λ x. length x.1.now < length items.now) }
{
    let (shape, rest) = read_shape(alloc, depth, items)?;
    let (shape, (_, rest)) = with(shape, expect(Symbol::Becomes, rest))?;
    let (shape, (init, rest)) = with(shape, read_init(alloc, depth, rest))?;
    object_close(names, true, shape, Some(init), lead, rest)
}

// The semicolon of a number.
#[tactic(auto, using(crate::proofs::Steps::steps))]
fn number_close<'a>(
    name: Word,
    value: Expr,
    items: &'a [Item],
) -> Result<(Decl, &'a [Item]), ParseError>
    ensures tree { Gives (λ x. plain_decl x.0) (λ x. x.1.now) result (reading.closed (λ close. DNumber name (plain_expr value) (from_to name.span close)) items.now) }
    ensures shorter { IfOk result (λ x. length x.1.now < length items.now) }
{
    let (close, rest) = expect(Symbol::Semicolon, items)?;
    let span = from_to(name.span, close);
    Ok((
        Decl {
            kind: DeclKind::Number { name, value },
            span,
        },
        rest,
    ))
}

// A number or a constant of this one name, behind `constant`.
#[tactic(auto, using(crate::proofs::Steps::steps))]
fn number_rest<'a>(
    alloc: Global,
    depth: u32,
    names: Vec<Word>,
    name: Word,
    items: &'a [Item],
) -> Result<(Decl, &'a [Item]), ParseError>
    ensures tree { Gives (λ x. plain_decl x.0) (λ x. x.1.now) result (views.number_of depth names.items name items.now) }
    ensures shorter { IfOk result (λ x. length x.1.now < length items.now) }
{
    let [next, rest @ ..] = items else {
        return Err(ParseError::Syntax { at: 0 });
    };
    if !is_symbol(Symbol::Becomes, *next) {
        return constant_rest(alloc, depth, names, name.span, items);
    }
    let (value, _, rest) = read_expr(alloc, depth, rest)?;
    number_close(name, value, rest)
}

// Behind `constant`: with one name it may be a number.
#[tactic(auto, using(crate::proofs::Steps::steps))]
fn number_or_constant<'a>(
    alloc: Global,
    depth: u32,
    names: Vec<Word>,
    items: &'a [Item],
) -> Result<(Decl, &'a [Item]), ParseError>
    requires some { 0 < length names.items }
    ensures tree { Gives (λ x. plain_decl x.0) (λ x. x.1.now) result (views.with_names (declarations.number_or_constant depth) names.items items.now) }
    ensures shorter { IfOk result (λ x. length x.1.now < length items.now) }
{
    let first = names[0];
    let count = names.len();
    if count == 1 {
        return number_rest(alloc, depth, names, first, items);
    }
    constant_rest(alloc, depth, names, first.span, items)
}

// The semicolon of exceptions.
#[tactic(auto, using(crate::proofs::Steps::steps))]
fn exceptions<'a>(
    names: Vec<Word>,
    lead: Span,
    items: &'a [Item],
) -> Result<(Decl, &'a [Item]), ParseError>
    ensures tree { Gives (λ x. plain_decl x.0) (λ x. x.1.now) result (reading.closed (λ close. DException names.items (from_to lead close)) items.now) }
    ensures shorter { IfOk result (λ x. length x.1.now < length items.now) }
{
    let (close, rest) = expect(Symbol::Semicolon, items)?;
    let span = from_to(lead, close);
    Ok((
        Decl {
            kind: DeclKind::Exception { names },
            span,
        },
        rest,
    ))
}

// Behind names that begin here, and their colon.
#[tactic(auto, using(crate::proofs::Steps::steps))]
fn named_from<'a>(
    alloc: Global,
    depth: u32,
    names: Vec<Word>,
    lead: Span,
    items: &'a [Item],
) -> Result<(Decl, &'a [Item]), ParseError>
    requires some { 0 < length names.items }
    ensures tree { Gives (λ x. plain_decl x.0) (λ x. x.1.now) result (views.named_of depth names.items lead items.now) }
    ensures shorter { IfOk result (λ x. length x.1.now < length items.now) }
{
    let [next, rest @ ..] = items else {
        return Err(ParseError::Syntax { at: 0 });
    };
    if is_symbol(Symbol::Exception, *next) {
        return exceptions(names, lead, rest);
    }
    if is_symbol(Symbol::Constant, *next) {
        return number_or_constant(alloc, depth, names, rest);
    }
    variable_rest(alloc, depth, names, lead, items)
}

// Behind names and their colon.
#[tactic(auto, using(crate::proofs::Steps::steps))]
fn named_rest<'a>(
    alloc: Global,
    depth: u32,
    names: Vec<Word>,
    items: &'a [Item],
) -> Result<(Decl, &'a [Item]), ParseError>
    requires some { 0 < length names.items }
    ensures tree { Gives (λ x. plain_decl x.0) (λ x. x.1.now) result (views.with_names (declarations.named_rest depth) names.items items.now) }
    ensures shorter { IfOk result (λ x. length x.1.now < length items.now) }
{
    let lead = names[0].span;
    named_from(alloc, depth, names, lead, items)
}

// An object of names that begin here, behind their colon.
#[tactic(auto, using(crate::proofs::Steps::steps))]
fn object_from<'a>(
    alloc: Global,
    depth: u32,
    names: Vec<Word>,
    lead: Span,
    items: &'a [Item],
) -> Result<(Decl, &'a [Item]), ParseError>
    ensures tree { Gives (λ x. plain_decl x.0) (λ x. x.1.now) result (views.object_of depth names.items lead items.now) }
    ensures shorter { IfOk result (λ x. length x.1.now < length items.now) }
{
    let [next, rest @ ..] = items else {
        return Err(ParseError::Syntax { at: 0 });
    };
    if is_symbol(Symbol::Constant, *next) {
        return constant_rest(alloc, depth, names, lead, rest);
    }
    variable_rest(alloc, depth, names, lead, items)
}

// An object, behind its names and their colon.
#[tactic(auto, using(crate::proofs::Steps::steps))]
fn object_rest<'a>(
    alloc: Global,
    depth: u32,
    names: Vec<Word>,
    items: &'a [Item],
) -> Result<(Decl, &'a [Item]), ParseError>
    requires some { 0 < length names.items }
    ensures tree { Gives (λ x. plain_decl x.0) (λ x. x.1.now) result (views.with_names (declarations.object_rest depth) names.items items.now) }
    ensures shorter { IfOk result (λ x. length x.1.now < length items.now) }
{
    let lead = names[0].span;
    object_from(alloc, depth, names, lead, items)
}

// Names and their colon.
#[tactic(auto, using(crate::proofs::Steps::steps))]
fn read_names<'a>(alloc: Global, items: &'a [Item]) -> Result<(Vec<Word>, &'a [Item]), ParseError>
    ensures tree { Gives (λ x. x.0.items) (λ x. x.1.now) result (reading.separated key.Comma (token tests.word) items.now) }
    ensures some { IfOk result (λ x. 0 < length x.0.items) }
    ensures shorter { IfOk result (λ x. length x.1.now < length items.now) }
{
    read_words(alloc, Symbol::Comma, items)
}

/// An object alone.
#[tactic(auto, using(crate::proofs::Steps::steps, crate::proofs::DeclSteps::names_are))]
pub fn read_object<'a>(
    alloc: Global,
    depth: u32,
    items: &'a [Item],
) -> Result<(Decl, &'a [Item]), ParseError>
    ensures tree { Gives (λ x. plain_decl x.0) (λ x. x.1.now) result (declarations.object depth items.now) }
    ensures shorter { IfOk result (λ x. length x.1.now < length items.now) }
{
    let (names, rest) = read_names(alloc, items)?;
    let (_, rest) = expect(Symbol::Colon, rest)?;
    object_rest(alloc, depth, names, rest)
}

/// What begins with names.
#[tactic(auto, using(crate::proofs::Steps::steps, crate::proofs::DeclSteps::names_are))]
pub fn read_named<'a>(
    alloc: Global,
    depth: u32,
    items: &'a [Item],
) -> Result<(Decl, &'a [Item]), ParseError>
    ensures tree { Gives (λ x. plain_decl x.0) (λ x. x.1.now) result (bind (token tests.word) (declarations.names_behind (declarations.named_rest depth)) items.now) }
    ensures shorter { IfOk result (λ x. length x.1.now < length items.now) }
{
    let (names, rest) = read_names(alloc, items)?;
    let (_, rest) = expect(Symbol::Colon, rest)?;
    named_rest(alloc, depth, names, rest)
}
