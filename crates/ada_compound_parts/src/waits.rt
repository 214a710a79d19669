//! How select statements and their alternatives end, and where an alternative begins (9.7).

ghost use Rattle.std.specs.Prelude.{◌≡◌, ◌<◌, IfOk, map, length};
ghost use Rattle.ada_tree.specs.PlainStmt.{plain_stmt, plain_alt, seen_maybe, alts_of, SWait, plain_call, seen};
ghost use Rattle.ada_lexer.specs.declared.symbols.Symbol.TheVariants as key;
ghost use Rattle.ada_expr_parser.specs.Trees.{from_to};
ghost use Rattle.ada_expr_parser.specs.Gives.{Gives};
ghost use Rattle.ada_phrase_parser.specs.Reading as reading;
ghost use Rattle.ada_compound_parts.specs.inner.ReadingHeads as front;
ghost use Rattle.ada_compound_parts.specs.inner.ReadingParts as parts;

use ada_expr_parser::joining::with;
use ada_expr_parser::{Item, ParseError, Symbol, expect, read_call_behind, read_target};
use ada_phrase_parser::{from_to, read_delayed};
use ada_tree::{Alt, Call, Callee, Span, Stmt, StmtKind};
use std::alloc::Global;

/// `end select ;`
#[tactic(auto, using(crate::proofs::Steps::steps))]
pub fn end_select<'a>(items: &'a [Item]) -> Result<(Span, &'a [Item]), ParseError>
    ensures tree { Gives (λ x. x.0) (λ x. x.1.now) result (front.end_select items.now) }
    ensures shorter { IfOk result (λ x. length x.1.now < length items.now) }
{
    let (_, rest) = expect(Symbol::End, items)?;
    let (_, rest) = expect(Symbol::Select, rest)?;
    expect(Symbol::Semicolon, rest)
}

/// Behind the last part of a selective wait: its end.
#[tactic(auto, using(crate::proofs::Steps::steps, ada_tree::proofs::Rows::rows))]
pub fn wait_end<'a>(
    lead: Span,
    alts: Vec<Alt>,
    otherwise: Option<Vec<Stmt>>,
    items: &'a [Item],
) -> Result<(Stmt, &'a [Item]), ParseError>
    ensures tree { Gives (λ x. plain_stmt x.0) (λ x. x.1.now) result (reading.key_then key.End (reading.key_then key.Select (reading.closed (λ close. SWait (alts_of (map plain_alt alts.items)) (seen_maybe otherwise) (from_to lead close)))) items.now) }
    ensures shorter { IfOk result (λ x. length x.1.now < length items.now) }
{
    let (close, rest) = end_select(items)?;
    let span = from_to(lead, close);
    Ok((
        Stmt {
            kind: StmtKind::Wait { alts, otherwise },
            span,
        },
        rest,
    ))
}

/// The place at which an alternative begins: that of its guard, or its own first word.
pub fn first_of_alt(guard: Option<Span>, own: Span) -> Span
    ensures { result ≡ parts.first_of_alt guard own }
{
    match guard {
        Some(guard) => guard,
        None => own,
    }
}

/// An entry call that is selected, with its semicolon.
#[tactic(auto, using(crate::proofs::Steps::steps))]
pub fn selected_call<'a>(
    alloc: Global,
    depth: u32,
    items: &'a [Item],
) -> Result<(Call, &'a [Item]), ParseError>
    ensures tree { Gives (λ x. plain_call x.0) (λ x. x.1.now) result (front.selected_call depth items.now) }
    ensures shorter { IfOk result (λ x. length x.1.now < length items.now) }
{
    let (target, _, rest) = read_target(alloc, depth, items)?;
    let task = Callee {
        name: target.name,
        index: target.index,
    };
    let (call, rest) = read_call_behind(alloc, depth, task, rest)?;
    let (call, (_, rest)) = with(call, expect(Symbol::Semicolon, rest))?;
    Ok((call, rest))
}

/// `or delay`, and a duration in thousandths with its semicolon.
#[tactic(auto, using(crate::proofs::Steps::steps))]
pub fn or_delay<'a>(items: &'a [Item]) -> Result<(u32, &'a [Item]), ParseError>
    ensures tree { Gives (λ x. x.0) (λ x. x.1.now) result (front.or_delay items.now) }
    ensures shorter { IfOk result (λ x. length x.1.now < length items.now) }
{
    let (_, rest) = expect(Symbol::Or, items)?;
    let (_, rest) = expect(Symbol::Delay, rest)?;
    let (thousandths, _, rest) = read_delayed(rest)?;
    Ok((thousandths, rest))
}

/// A timed entry call (9.7.3) where there is a delay, and else a conditional one (9.7.2), from `lead` to `close`.
#[tactic(auto, using(ada_tree::proofs::Rows::rows))]
pub fn selected(
    lead: Span,
    call: Call,
    behind: Vec<Stmt>,
    delay: Option<u32>,
    last: Vec<Stmt>,
    close: Span,
) -> Stmt
    ensures { plain_stmt result ≡ front.selected lead (plain_call call) (seen behind.items) delay (seen last.items) close }
{
    let span = from_to(lead, close);
    match delay {
        Some(thousandths) => Stmt {
            kind: StmtKind::Timed {
                call,
                behind,
                thousandths,
                after: last,
            },
            span,
        },
        None => Stmt {
            kind: StmtKind::Conditional {
                call,
                behind,
                otherwise: last,
            },
            span,
        },
    }
}
