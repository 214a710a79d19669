//! Selective waits, conditional and timed entry calls, and accept statements (chapter 9).

ghost use Rattle.std.specs.Prelude.{◌<◌, ◌≤◌, ◌-◌, IfOk, map, length};
ghost use Rattle.ada_expr_parser.specs.readers.Readers.{fronted};
ghost use Rattle.ada_tree.specs.PlainStmt.{plain_stmt, plain_alt, plain_alt_kind, plain_accept, seen, seen_maybe};
ghost use Rattle.ada_lexer.specs.declared.symbols.Symbol.TheVariants as key;
ghost use Rattle.ada_expr_parser.specs.Gives.{Gives};
ghost use Rattle.ada_phrase_parser.specs.Reading as reading;
ghost use Rattle.ada_stmt_parser.specs.inner.ReadingStatements as statements;
ghost use Rattle.ada_stmt_parser.specs.inner.Turns as turns;
ghost use Rattle.ada_phrase_parser.specs.Views.{told};
ghost use Rattle.ada_compound_parts.specs.inner.ReadingHeads as front;

use crate::sequences::{any_stmts, else_part, stmts};
use ada_compound_parts::{
    end_select, first_of_alt, last_span, or_delay, read_end_of, read_guard, selected,
    selected_call, terminate_kind, wait_end,
};
use ada_expr_parser::joining::with;
use ada_expr_parser::{Item, ParseError, Symbol, expect, expect_word};
use ada_phrase_parser::{Source, add, entry_behind, from_to, read_delayed, stands, word_in};
use ada_tree::{Accept, Alt, AltKind, Span, Stmt, Word};
use std::alloc::Global;

/// Behind `select`.
#[tactic(auto, using(crate::proofs::Inner::inward))]
#[cycle(stmt)]
pub(crate) fn read_select<'a>(
    alloc: Global,
    source: &Source<'_>,
    depth: u32,
    lead: Span,
    items: &'a [Item],
) -> Result<(Stmt, &'a [Item]), ParseError>
    requires { 0 < depth }
    ensures tree { Gives (λ x. plain_stmt x.0) (λ x. x.1.now) result (statements.select_rest (depth - 1) (statements.inner_at (told source.now) depth) lead items.now) }
    ensures shorter { IfOk result (λ x. length x.1.now < length items.now) }
{
    let [next, ..] = items else {
        return Err(ParseError::Syntax { at: 0 });
    };
    if word_in(*next).is_none() {
        return wait(alloc, source, depth, lead, items);
    }
    let (call, rest) = selected_call(alloc, depth - 1, items)?;
    let (call, (behind, delay, last, close, rest)) = with(
        call,
        call_tail(alloc, source, depth, rest),
    )?;
    Ok((selected(lead, call, behind, delay, last, close), rest))
}

// Behind `select` and a call: the statements behind it, and an else part or a delay with its statements.
#[tactic(auto, using(crate::proofs::Inner::inward))]
#[cycle(stmt)]
fn call_tail<'a>(
    alloc: Global,
    source: &Source<'_>,
    depth: u32,
    items: &'a [Item],
) -> Result<(Vec<Stmt>, Option<u32>, Vec<Stmt>, Span, &'a [Item]), ParseError>
    requires { 0 < depth }
    ensures tree { Gives (λ x. front.call_tail_of (seen x.0.items) x.1 (seen x.2.items) x.3) (λ x. x.4.now) result (turns.call_tail (statements.inner_at (told source.now) depth) items.now) }
    ensures shorter { IfOk result (λ x. length x.4.now < length items.now) }
{
    let (behind, items) = any_stmts(alloc, source, depth, items)?;
    let [next, rest @ ..] = items else {
        return Err(ParseError::Syntax { at: 0 });
    };
    if stands(Symbol::Else, *next) {
        let (otherwise, rest) = stmts(alloc, source, depth, rest)?;
        let (close, rest) = end_select(rest)?;
        return Ok((behind, None, otherwise, close, rest));
    }
    let (thousandths, rest) = or_delay(items)?;
    let (after, rest) = any_stmts(alloc, source, depth, rest)?;
    let (close, rest) = end_select(rest)?;
    Ok((behind, Some(thousandths), after, close, rest))
}

// A selective wait, behind `select`.
#[tactic(auto, using(crate::proofs::Inner::inward))]
#[cycle(stmt)]
fn wait<'a>(
    alloc: Global,
    source: &Source<'_>,
    depth: u32,
    lead: Span,
    items: &'a [Item],
) -> Result<(Stmt, &'a [Item]), ParseError>
    requires { 0 < depth }
    ensures tree { Gives (λ x. plain_stmt x.0) (λ x. x.1.now) result (statements.wait_rest (statements.inner_at (told source.now) depth) lead items.now) }
    ensures shorter { IfOk result (λ x. length x.1.now < length items.now) }
{
    let (alts, rest) = read_alts(alloc, source, depth, items)?;
    let (otherwise, rest) = else_part(alloc, source, depth, rest)?;
    wait_end(lead, alts, otherwise, rest)
}

// An alternative one level deeper.
#[tactic(auto, using(crate::proofs::Inner::inward))]
#[cycle(stmt)]
fn alt_below<'a>(
    alloc: Global,
    source: &Source<'_>,
    depth: u32,
    items: &'a [Item],
) -> Result<(Alt, &'a [Item]), ParseError>
    requires { 0 < depth }
    ensures tree { Gives (λ x. plain_alt x.0) (λ x. x.1.now) result ((statements.inner_at (told source.now) depth).alt items.now) }
    ensures shorter { IfOk result (λ x. length x.1.now < length items.now) }
{
    read_alt(alloc, source, depth - 1, items)
}

// An alternative one level deeper, behind `or`.
#[tactic(auto, using(crate::proofs::Inner::inward))]
#[cycle(stmt)]
fn next_alt<'a>(
    alloc: Global,
    source: &Source<'_>,
    depth: u32,
    items: &'a [Item],
) -> Result<(Alt, &'a [Item]), ParseError>
    requires { 0 < depth }
    ensures tree { Gives (λ x. plain_alt x.0) (λ x. x.1.now) result (reading.key_then key.Or (statements.inner_at (told source.now) depth).alt items.now) }
    ensures shorter { IfOk result (λ x. length x.1.now < length items.now) }
{
    let (_, rest) = expect(Symbol::Or, items)?;
    alt_below(alloc, source, depth, rest)
}

// Further alternatives, each behind `or`, at the end of the list.
#[tactic(auto, using(crate::proofs::Inner::inward))]
#[cycle(stmt)]
fn alts_onto<'a>(
    alloc: Global,
    source: &Source<'_>,
    depth: u32,
    list: &mut Vec<Alt>,
    items: &'a [Item],
) -> Result<&'a [Item], ParseError>
    requires { 0 < depth }
    ensures tree { Gives (λ x. map plain_alt list.new.items) (λ x. x.now) result (fronted (map plain_alt list.old.items) (reading.more_behind key.Or (statements.inner_at (told source.now) depth).alt items.now)) }
    ensures shorter { IfOk result (λ x. length x.now ≤ length items.now) }
{
    let mut rest = items;
    'alts: loop {
        let [next, ..] = rest else {
            return Err(ParseError::Syntax { at: 0 });
        };
        if !stands(Symbol::Or, *next) {
            return Ok(rest);
        }
        let (alt, behind) = next_alt(alloc, source, depth, rest)?;
        add(list, alt)?;
        rest = behind;
    }
}

// Alternatives with `or` between them, one at least.
#[tactic(auto, using(crate::proofs::Inner::inward))]
#[cycle(stmt)]
fn read_alts<'a>(
    alloc: Global,
    source: &Source<'_>,
    depth: u32,
    items: &'a [Item],
) -> Result<(Vec<Alt>, &'a [Item]), ParseError>
    requires { 0 < depth }
    ensures tree { Gives (λ x. map plain_alt x.0.items) (λ x. x.1.now) result (reading.separated key.Or (statements.inner_at (told source.now) depth).alt items.now) }
    ensures shorter { IfOk result (λ x. length x.1.now < length items.now) }
{
    let (first, rest) = alt_below(alloc, source, depth, items)?;
    let mut list = Vec::new(alloc);
    add(&mut list, first)?;
    let rest = alts_onto(alloc, source, depth, &mut list, rest)?;
    Ok((list, rest))
}

// An alternative.
#[tactic(auto, using(crate::proofs::Inner::inward, crate::proofs::Alternatives::alternatives))]
#[cycle(stmt)]
fn read_alt<'a>(
    alloc: Global,
    source: &Source<'_>,
    depth: u32,
    items: &'a [Item],
) -> Result<(Alt, &'a [Item]), ParseError>
    ensures tree { Gives (λ x. plain_alt x.0) (λ x. x.1.now) result ((statements.readers (told source.now) depth).alt items.now) }
    ensures shorter { IfOk result (λ x. length x.1.now < length items.now) }
{
    let (guard, lead, rest) = read_guard(alloc, depth, items)?;
    let (guard, (kind, first, last, rest)) = with(guard, alt_kind(alloc, source, depth, rest))?;
    let span = from_to(first_of_alt(lead, first), last);
    Ok((Alt { guard, kind, span }, rest))
}

// The kind of an alternative, where it begins, and where it ends.
#[tactic(auto, using(crate::proofs::Inner::inward))]
#[cycle(stmt)]
fn alt_kind<'a>(
    alloc: Global,
    source: &Source<'_>,
    depth: u32,
    items: &'a [Item],
) -> Result<(AltKind, Span, Span, &'a [Item]), ParseError>
    ensures tree { Gives (λ x. front.kind_of (plain_alt_kind x.0) x.1 x.2) (λ x. x.3.now) result (turns.alt_kind depth (statements.inner_at (told source.now) depth) items.now) }
    ensures shorter { IfOk result (λ x. length x.3.now < length items.now) }
{
    let [next, rest @ ..] = items else {
        return Err(ParseError::Syntax { at: 0 });
    };
    if stands(Symbol::Accept, *next) {
        if depth == 0 {
            return Err(ParseError::TooDeep {
                at: next.span.start,
            });
        }
        return accept_kind(alloc, source, depth, next.span, rest);
    }
    if stands(Symbol::Delay, *next) {
        if depth == 0 {
            return Err(ParseError::TooDeep {
                at: next.span.start,
            });
        }
        return delay_kind(alloc, source, depth, next.span, rest);
    }
    terminate_kind(items)
}

// Behind `accept` of an alternative.
#[tactic(auto, using(crate::proofs::Inner::inward, ada_tree::proofs::Rows::rows))]
#[cycle(stmt)]
fn accept_kind<'a>(
    alloc: Global,
    source: &Source<'_>,
    depth: u32,
    lead: Span,
    items: &'a [Item],
) -> Result<(AltKind, Span, Span, &'a [Item]), ParseError>
    requires { 0 < depth }
    ensures tree { Gives (λ x. front.kind_of (plain_alt_kind x.0) x.1 x.2) (λ x. x.3.now) result (turns.accept_kind (statements.inner_at (told source.now) depth) lead items.now) }
    ensures shorter { IfOk result (λ x. length x.3.now < length items.now) }
{
    let (accept, rest) = read_accept(alloc, source, depth - 1, lead, items)?;
    let (accept, (stmts, rest)) = with(accept, any_stmts(alloc, source, depth, rest))?;
    let last = last_span(accept.span, &stmts);
    Ok((AltKind::Accept { accept, stmts }, lead, last, rest))
}

// Behind `delay` of an alternative.
#[tactic(auto, using(crate::proofs::Inner::inward, ada_tree::proofs::Rows::rows))]
#[cycle(stmt)]
fn delay_kind<'a>(
    alloc: Global,
    source: &Source<'_>,
    depth: u32,
    lead: Span,
    items: &'a [Item],
) -> Result<(AltKind, Span, Span, &'a [Item]), ParseError>
    requires { 0 < depth }
    ensures tree { Gives (λ x. front.kind_of (plain_alt_kind x.0) x.1 x.2) (λ x. x.3.now) result (turns.delay_kind (statements.inner_at (told source.now) depth) lead items.now) }
    ensures shorter { IfOk result (λ x. length x.3.now < length items.now) }
{
    let (thousandths, close, rest) = read_delayed(items)?;
    let (stmts, rest) = any_stmts(alloc, source, depth, rest)?;
    let last = last_span(close, &stmts);
    Ok((AltKind::Delay { thousandths, stmts }, lead, last, rest))
}

/// Behind `accept`.
#[tactic(auto, using(crate::proofs::Inner::inward, crate::proofs::Alternatives::alternatives, ada_tree::proofs::Rows::rows))]
#[cycle(stmt)]
pub(crate) fn read_accept<'a>(
    alloc: Global,
    source: &Source<'_>,
    depth: u32,
    lead: Span,
    items: &'a [Item],
) -> Result<(Accept, &'a [Item]), ParseError>
    ensures tree { Gives (λ x. plain_accept x.0) (λ x. x.1.now) result (statements.accept_at depth (statements.inner_at (told source.now) depth) lead items.now) }
    ensures shorter { IfOk result (λ x. length x.1.now < length items.now) }
{
    let (entry, rest) = expect_word(items)?;
    let (behind, rest) = entry_behind(alloc, depth, rest)?;
    let (behind, (stmts, close, rest)) = with(
        behind,
        accept_tail(alloc, source, depth, entry, rest),
    )?;
    let span = from_to(lead, close);
    Ok((
        Accept {
            entry,
            index: behind.index,
            formals: behind.formals,
            stmts,
            span,
        },
        rest,
    ))
}

// The end of an accept statement: `do` and its statements, or nothing; and the place of its semicolon.
#[tactic(auto, using(crate::proofs::Inner::inward))]
#[cycle(stmt)]
fn accept_tail<'a>(
    alloc: Global,
    source: &Source<'_>,
    depth: u32,
    entry: Word,
    items: &'a [Item],
) -> Result<(Option<Vec<Stmt>>, Span, &'a [Item]), ParseError>
    ensures tree { Gives (λ x. turns.tail_of (seen_maybe x.0) x.1) (λ x. x.2.now) result (turns.accept_tail depth (statements.inner_at (told source.now) depth) entry items.now) }
    ensures shorter { IfOk result (λ x. length x.2.now < length items.now) }
{
    let [next, rest @ ..] = items else {
        return Err(ParseError::Syntax { at: 0 });
    };
    if !stands(Symbol::Do, *next) {
        let (close, rest) = expect(Symbol::Semicolon, items)?;
        return Ok((None, close, rest));
    }
    if depth == 0 {
        return Err(ParseError::TooDeep {
            at: next.span.start,
        });
    }
    let (stmts, rest) = stmts(alloc, source, depth, rest)?;
    let (close, rest) = read_end_of(entry, rest)?;
    Ok((Some(stmts), close, rest))
}
