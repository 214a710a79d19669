//! Simple statements that begin with a reserved word, behind that word.

ghost use Rattle.std.specs.Prelude.{◌≡◌, ◌<◌, ◌≤◌, Some, None, IfOk, map, length};
ghost use Rattle.ada_expr_parser.specs.readers.Readers.{on, bind, pure, fronted};
ghost use Rattle.ada_tree.specs.PlainStmt.{plain_stmt, SNull, SDelay, SRaise, SAbort};
ghost use Rattle.ada_lexer.specs.declared.symbols.Symbol.TheVariants as key;
ghost use Rattle.ada_expr_parser.specs.Tests as tests;
ghost use Rattle.ada_expr_parser.specs.Trees.{from_to};
ghost use Rattle.ada_expr_parser.specs.Parts as parts;
ghost use Rattle.ada_expr_parser.specs.Gives.{Gives};
ghost use Rattle.ada_phrase_parser.specs.Reading as reading;
ghost use Rattle.ada_simple_stmt_parser.specs.inner.ReadingSimple as simple;
ghost use Rattle.ada_simple_stmt_parser.specs.inner.SimpleViews.{as_target};

use ada_expr_parser::{Item, ParseError, Symbol, expect, read_expr, read_target};
use ada_phrase_parser::{add, from_to, is_symbol, read_delayed, word_in};
use ada_tree::{Callee, Span, Stmt, StmtKind, Word};
use std::alloc::Global;

/// Behind `null`.
#[tactic(auto, using(crate::proofs::Steps::steps))]
pub fn read_null<'a>(lead: Span, items: &'a [Item]) -> Result<(Stmt, &'a [Item]), ParseError>
    ensures tree { Gives (λ x. plain_stmt x.0) (λ x. x.1.now) result (reading.closed (λ close. SNull (from_to lead close)) items.now) }
    ensures shorter { IfOk result (λ x. length x.1.now < length items.now) }
{
    let (close, rest) = expect(Symbol::Semicolon, items)?;
    let span = from_to(lead, close);
    Ok((
        Stmt {
            kind: StmtKind::Null,
            span,
        },
        rest,
    ))
}

/// Behind `delay`.
#[tactic(auto, using(crate::proofs::Steps::steps))]
pub fn read_delay<'a>(lead: Span, items: &'a [Item]) -> Result<(Stmt, &'a [Item]), ParseError>
    ensures tree { Gives (λ x. plain_stmt x.0) (λ x. x.1.now) result (bind reading.delayed (λ x. pure (SDelay x.thousandths (from_to lead x.close))) items.now) }
    ensures shorter { IfOk result (λ x. length x.1.now < length items.now) }
{
    let (thousandths, close, rest) = read_delayed(items)?;
    let span = from_to(lead, close);
    Ok((
        Stmt {
            kind: StmtKind::Delay { thousandths },
            span,
        },
        rest,
    ))
}

/// Behind `exit` and a name or none.
#[tactic(auto, using(crate::proofs::Steps::steps))]
fn exit_rest<'a>(
    alloc: Global,
    depth: u32,
    lead: Span,
    name: Option<Word>,
    items: &'a [Item],
) -> Result<(Stmt, &'a [Item]), ParseError>
    ensures tree { Gives (λ x. plain_stmt x.0) (λ x. x.1.now) result (simple.exit_rest depth lead name items.now) }
    ensures shorter { IfOk result (λ x. length x.1.now < length items.now) }
{
    let [next, rest @ ..] = items else {
        return Err(ParseError::Syntax { at: 0 });
    };
    if !is_symbol(Symbol::When, *next) {
        let (close, rest) = expect(Symbol::Semicolon, items)?;
        let span = from_to(lead, close);
        return Ok((
            Stmt {
                kind: StmtKind::Exit { name, test: None },
                span,
            },
            rest,
        ));
    }
    if depth == 0 {
        return Err(ParseError::TooDeep {
            at: next.span.start,
        });
    }
    let (test, _, rest) = read_expr(alloc, depth - 1, rest)?;
    let (close, rest) = expect(Symbol::Semicolon, rest)?;
    let span = from_to(lead, close);
    Ok((
        Stmt {
            kind: StmtKind::Exit {
                name,
                test: Some(test),
            },
            span,
        },
        rest,
    ))
}

/// Behind `exit`.
#[tactic(auto, using(crate::proofs::Steps::steps))]
pub fn read_exit<'a>(
    alloc: Global,
    depth: u32,
    lead: Span,
    items: &'a [Item],
) -> Result<(Stmt, &'a [Item]), ParseError>
    ensures tree { Gives (λ x. plain_stmt x.0) (λ x. x.1.now) result (on tests.word (λ w. simple.exit_rest depth lead (Some w)) (simple.exit_rest depth lead None) items.now) }
    ensures shorter { IfOk result (λ x. length x.1.now < length items.now) }
{
    let [next, rest @ ..] = items else {
        return Err(ParseError::Syntax { at: 0 });
    };
    match word_in(*next) {
        Some(name) => exit_rest(alloc, depth, lead, Some(name), rest),
        None => exit_rest(alloc, depth, lead, None, items),
    }
}

// Behind `raise` and a name or none.
#[tactic(auto, using(crate::proofs::Steps::steps))]
fn raise_rest<'a>(
    lead: Span,
    name: Option<Word>,
    items: &'a [Item],
) -> Result<(Stmt, &'a [Item]), ParseError>
    ensures tree { Gives (λ x. plain_stmt x.0) (λ x. x.1.now) result (reading.closed (λ close. SRaise name (from_to lead close)) items.now) }
    ensures shorter { IfOk result (λ x. length x.1.now < length items.now) }
{
    let (close, rest) = expect(Symbol::Semicolon, items)?;
    let span = from_to(lead, close);
    Ok((
        Stmt {
            kind: StmtKind::Raise { name },
            span,
        },
        rest,
    ))
}

/// Behind `raise`.
#[tactic(auto, using(crate::proofs::Steps::steps))]
pub fn read_raise<'a>(lead: Span, items: &'a [Item]) -> Result<(Stmt, &'a [Item]), ParseError>
    ensures tree { Gives (λ x. plain_stmt x.0) (λ x. x.1.now) result (on tests.word (λ w. reading.closed (λ close. SRaise (Some w) (from_to lead close))) (reading.closed (λ close. SRaise None (from_to lead close))) items.now) }
    ensures shorter { IfOk result (λ x. length x.1.now < length items.now) }
{
    let [next, rest @ ..] = items else {
        return Err(ParseError::Syntax { at: 0 });
    };
    match word_in(*next) {
        Some(name) => raise_rest(lead, Some(name), rest),
        None => raise_rest(lead, None, items),
    }
}

// A task, or a member of an array of tasks.
#[tactic(auto, using(crate::proofs::Steps::steps))]
fn read_callee<'a>(
    alloc: Global,
    depth: u32,
    items: &'a [Item],
) -> Result<(Callee, &'a [Item]), ParseError>
    ensures tree { Gives (λ x. as_target x.0) (λ x. x.1.now) result (parts.target depth items.now) }
    ensures shorter { IfOk result (λ x. length x.1.now < length items.now) }
{
    let (target, _, rest) = read_target(alloc, depth, items)?;
    Ok((
        Callee {
            name: target.name,
            index: target.index,
        },
        rest,
    ))
}

// A task behind a comma.
#[tactic(auto, using(crate::proofs::Steps::steps))]
fn next_callee<'a>(
    alloc: Global,
    depth: u32,
    items: &'a [Item],
) -> Result<(Callee, &'a [Item]), ParseError>
    ensures tree { Gives (λ x. as_target x.0) (λ x. x.1.now) result (reading.key_then key.Comma (parts.target depth) items.now) }
    ensures shorter { IfOk result (λ x. length x.1.now < length items.now) }
{
    let (_, rest) = expect(Symbol::Comma, items)?;
    read_callee(alloc, depth, rest)
}

// Further tasks, each behind a comma, at the end of the list.
#[tactic(auto, using(crate::proofs::Steps::steps))]
fn callees_onto<'a>(
    alloc: Global,
    depth: u32,
    list: &mut Vec<Callee>,
    items: &'a [Item],
) -> Result<&'a [Item], ParseError>
    ensures tree { Gives (λ x. map as_target list.new.items) (λ x. x.now) result (fronted (map as_target list.old.items) (reading.more_behind key.Comma (parts.target depth) items.now)) }
    ensures shorter { IfOk result (λ x. length x.now ≤ length items.now) }
{
    let mut rest = items;
    'callees: loop {
        let [next, ..] = rest else {
            return Err(ParseError::Syntax { at: 0 });
        };
        if !is_symbol(Symbol::Comma, *next) {
            return Ok(rest);
        }
        let (callee, behind) = next_callee(alloc, depth, rest)?;
        add(list, callee)?;
        rest = behind;
    }
}

// Tasks with commas between them, one at least.
#[tactic(auto, using(crate::proofs::Steps::steps))]
fn read_callees<'a>(
    alloc: Global,
    depth: u32,
    items: &'a [Item],
) -> Result<(Vec<Callee>, &'a [Item]), ParseError>
    ensures tree { Gives (λ x. map as_target x.0.items) (λ x. x.1.now) result (reading.separated key.Comma (parts.target depth) items.now) }
    ensures shorter { IfOk result (λ x. length x.1.now < length items.now) }
{
    let (first, rest) = read_callee(alloc, depth, items)?;
    let mut list = Vec::new(alloc);
    add(&mut list, first)?;
    let rest = callees_onto(alloc, depth, &mut list, rest)?;
    Ok((list, rest))
}

/// Behind `abort`.
#[tactic(auto, using(crate::proofs::Steps::steps, crate::proofs::Callees::callees_are))]
pub fn read_abort<'a>(
    alloc: Global,
    depth: u32,
    lead: Span,
    items: &'a [Item],
) -> Result<(Stmt, &'a [Item]), ParseError>
    ensures tree { Gives (λ x. plain_stmt x.0) (λ x. x.1.now) result (bind (reading.separated key.Comma (parts.target depth)) (λ ts. reading.closed (λ close. SAbort (map parts.callee_of ts) (from_to lead close))) items.now) }
    ensures shorter { IfOk result (λ x. length x.1.now < length items.now) }
{
    let (names, rest) = read_callees(alloc, depth, items)?;
    let (close, rest) = expect(Symbol::Semicolon, rest)?;
    let span = from_to(lead, close);
    Ok((
        Stmt {
            kind: StmtKind::Abort { names },
            span,
        },
        rest,
    ))
}
