//! Statements with their exception handlers (5.6, 11.2).

ghost use Rattle.std.specs.Prelude.{◌<◌, ◌≤◌, ◌-◌, IfOk, map, length};
ghost use Rattle.ada_tree.specs.PlainStmt.{plain_stmt, plain_body, plain_handler, handlers_of, body, no_handler, seen};
ghost use Rattle.ada_expr_parser.specs.readers.Readers.{below, bind, pure};
ghost use Rattle.ada_lexer.specs.declared.symbols.Symbol.TheVariants as key;
ghost use Rattle.ada_expr_parser.specs.Tests as tests;
ghost use Rattle.ada_expr_parser.specs.Gives.{Gives};
ghost use Rattle.ada_stmt_parser.specs.inner.ReadingStatements as statements;
ghost use Rattle.ada_phrase_parser.specs.Views.{told};
ghost use Rattle.ada_stmt_parser.specs.inner.StmtViews.{handler_whens};

use crate::sequences::stmts;
use ada_compound_parts::{add_others, block_end, last_span};
use ada_expr_parser::{Item, ParseError, Symbol, expect};
use ada_phrase_parser::{Source, add, from_to, read_words, stands};
use ada_tree::{Body, Handler, Span, Stmt};
use std::alloc::Global;

/// A block, behind `begin`.
#[tactic(auto, using(crate::proofs::Inner::inward))]
#[cycle(stmt)]
pub(crate) fn read_block<'a>(
    alloc: Global,
    source: &Source<'_>,
    depth: u32,
    lead: Span,
    items: &'a [Item],
) -> Result<(Stmt, &'a [Item]), ParseError>
    requires { 0 < depth }
    ensures tree { Gives (λ x. plain_stmt x.0) (λ x. x.1.now) result (statements.block_rest (depth - 1) (statements.inner_at (told source.now) depth) lead items.now) }
    ensures shorter { IfOk result (λ x. length x.1.now < length items.now) }
{
    let (body, rest) = read_body(alloc, source, depth, items)?;
    block_end(lead, body, rest)
}

/// Behind `begin`: statements, and handlers if there are some.
#[tactic(auto, using(crate::proofs::Inner::inward))]
#[cycle(stmt)]
pub(crate) fn read_body<'a>(
    alloc: Global,
    source: &Source<'_>,
    depth: u32,
    items: &'a [Item],
) -> Result<(Body, &'a [Item]), ParseError>
    requires { 0 < depth }
    ensures tree { Gives (λ x. plain_body x.0) (λ x. x.1.now) result (statements.body_rest (depth - 1) (statements.inner_at (told source.now) depth) items.now) }
    ensures shorter { IfOk result (λ x. length x.1.now < length items.now) }
{
    let (stmts, rest) = stmts(alloc, source, depth, items)?;
    body_end(alloc, source, depth, stmts, rest)
}

// Behind the statements of a body: handlers if there are some.
#[tactic(auto, using(crate::proofs::Inner::inward, ada_tree::proofs::Rows::rows))]
#[cycle(stmt)]
fn body_end<'a>(
    alloc: Global,
    source: &Source<'_>,
    depth: u32,
    stmts: Vec<Stmt>,
    items: &'a [Item],
) -> Result<(Body, &'a [Item]), ParseError>
    requires { 0 < depth }
    ensures tree { Gives (λ x. plain_body x.0) (λ x. x.1.now) result (below (depth - 1) (tests.symbol key.Exception) (λ i at. bind (statements.inner_at (told source.now) depth).handlers (λ hs. pure (body (seen stmts.items) hs))) (pure (body (seen stmts.items) no_handler)) items.now) }
    ensures shorter { IfOk result (λ x. length x.1.now ≤ length items.now) }
{
    let [next, rest @ ..] = items else {
        return Err(ParseError::Syntax { at: 0 });
    };
    if !stands(Symbol::Exception, *next) {
        let handlers = Vec::new(alloc);
        return Ok((Body { stmts, handlers }, items));
    }
    let inner = depth - 1;
    if inner == 0 {
        return Err(ParseError::TooDeep {
            at: next.span.start,
        });
    }
    let (handlers, rest) = handlers_below(alloc, source, depth, rest)?;
    Ok((Body { stmts, handlers }, rest))
}

// Handlers behind `exception`, one at least.
#[tactic(auto, using(crate::proofs::Inner::inward))]
#[cycle(stmt)]
fn handlers_below<'a>(
    alloc: Global,
    source: &Source<'_>,
    depth: u32,
    items: &'a [Item],
) -> Result<(Vec<Handler>, &'a [Item]), ParseError>
    requires { 1 < depth }
    ensures tree { Gives (λ x. handlers_of (map plain_handler x.0.items)) (λ x. x.1.now) result ((statements.inner_at (told source.now) depth).handlers items.now) }
    ensures shorter { IfOk result (λ x. length x.1.now ≤ length items.now) }
{
    read_handlers(alloc, source, depth - 1, items)
}

// Handlers, one at least.
#[tactic(auto, using(crate::proofs::Inner::inward))]
#[cycle(stmt)]
fn read_handlers<'a>(
    alloc: Global,
    source: &Source<'_>,
    depth: u32,
    items: &'a [Item],
) -> Result<(Vec<Handler>, &'a [Item]), ParseError>
    requires { 0 < depth }
    ensures tree { Gives (λ x. handlers_of (map plain_handler x.0.items)) (λ x. x.1.now) result (statements.handlers_at (statements.inner_at (told source.now) depth) items.now) }
    ensures shorter { IfOk result (λ x. length x.1.now ≤ length items.now) }
{
    let [next, ..] = items else {
        return Err(ParseError::Syntax { at: 0 });
    };
    if !stands(Symbol::When, *next) {
        return Err(ParseError::Syntax {
            at: next.span.start,
        });
    }
    let (mut list, others, rest) = handler_parts(alloc, source, depth, items)?;
    add_others(&mut list, others)?;
    Ok((list, rest))
}

// Handlers, the last of which may be for others.
#[tactic(auto, using(crate::proofs::Inner::inward))]
#[cycle(stmt)]
fn handler_parts<'a>(
    alloc: Global,
    source: &Source<'_>,
    depth: u32,
    items: &'a [Item],
) -> Result<(Vec<Handler>, Option<Handler>, &'a [Item]), ParseError>
    requires { 0 < depth }
    ensures tree { Gives (λ x. handler_whens x.0.items x.1) (λ x. x.2.now) result (statements.whens (statements.handler_part (statements.inner_at (told source.now) depth)) (statements.handler_others (statements.inner_at (told source.now) depth)) items.now) }
    ensures shorter { IfOk result (λ x. length x.2.now ≤ length items.now) }
{
    let mut list = Vec::new(alloc);
    let mut rest = items;
    'handlers: loop {
        let [next, behind @ ..] = rest else {
            return Err(ParseError::Syntax { at: 0 });
        };
        if !stands(Symbol::When, *next) {
            return Ok((list, None, rest));
        }
        let [after, stmts @ ..] = behind else {
            return Err(ParseError::Syntax { at: 0 });
        };
        if stands(Symbol::Others, *after) {
            let (others, end) = others_handler(alloc, source, depth, next.span, stmts)?;
            return Ok((list, Some(others), end));
        }
        let (handler, end) = read_handler(alloc, source, depth, next.span, behind)?;
        add(&mut list, handler)?;
        rest = end;
    }
}

// A handler for some exceptions, behind `when`.
#[tactic(auto, using(crate::proofs::Inner::inward, ada_tree::proofs::Rows::rows))]
#[cycle(stmt)]
fn read_handler<'a>(
    alloc: Global,
    source: &Source<'_>,
    depth: u32,
    lead: Span,
    items: &'a [Item],
) -> Result<(Handler, &'a [Item]), ParseError>
    requires { 0 < depth }
    ensures tree { Gives (λ x. plain_handler x.0) (λ x. x.1.now) result (statements.handler_part (statements.inner_at (told source.now) depth) lead items.now) }
    ensures shorter { IfOk result (λ x. length x.1.now < length items.now) }
{
    let (names, rest) = read_words(alloc, Symbol::Bar, items)?;
    let (_, rest) = expect(Symbol::Arrow, rest)?;
    let (stmts, rest) = stmts(alloc, source, depth, rest)?;
    let span = from_to(lead, last_span(lead, &stmts));
    Ok((Handler { names, stmts, span }, rest))
}

// The handler for others, behind `when others`.
#[tactic(auto, using(crate::proofs::Inner::inward, ada_tree::proofs::Rows::rows))]
#[cycle(stmt)]
fn others_handler<'a>(
    alloc: Global,
    source: &Source<'_>,
    depth: u32,
    lead: Span,
    items: &'a [Item],
) -> Result<(Handler, &'a [Item]), ParseError>
    requires { 0 < depth }
    ensures tree { Gives (λ x. plain_handler x.0) (λ x. x.1.now) result (statements.handler_others (statements.inner_at (told source.now) depth) lead items.now) }
    ensures shorter { IfOk result (λ x. length x.1.now < length items.now) }
{
    let (_, rest) = expect(Symbol::Arrow, items)?;
    let (stmts, rest) = stmts(alloc, source, depth, rest)?;
    let span = from_to(lead, last_span(lead, &stmts));
    let names = Vec::new(alloc);
    Ok((Handler { names, stmts, span }, rest))
}

/// Behind `begin` of a unit or of a task's body, with at most `depth` levels below its statements.
#[tactic(auto, using(crate::proofs::Inner::body_at))]
pub fn unit_body<'a>(
    alloc: Global,
    source: &Source<'_>,
    depth: u32,
    items: &'a [Item],
) -> Result<(Body, &'a [Item]), ParseError>
    requires { depth ≤ 299 }
    ensures tree { Gives (λ x. plain_body x.0) (λ x. x.1.now) result (statements.body_rest depth (statements.readers (told source.now) depth) items.now) }
    ensures shorter { IfOk result (λ x. length x.1.now < length items.now) }
{
    read_body(alloc, source, depth + 1, items)
}
