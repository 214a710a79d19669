//! How if, case, block and loop statements end (5.3 to 5.6).

ghost use Rattle.std.specs.Prelude.{◌<◌, ◌-◌, IfOk, map, option_map, length};
ghost use Rattle.ada_tree.specs.PlainExpr.{plain_expr};
ghost use Rattle.ada_tree.specs.PlainStmt.{plain_stmt, plain_arm, plain_case_arm, seen, seen_maybe, arms_of, case_arms_of, SIf, SCase, SBlock, plain_scheme, plain_body, SLoop};
ghost use Rattle.ada_lexer.specs.declared.symbols.Symbol.TheVariants as key;
ghost use Rattle.ada_expr_parser.specs.Trees.{from_to};
ghost use Rattle.ada_expr_parser.specs.Gives.{Gives};
ghost use Rattle.ada_phrase_parser.specs.Reading as reading;
ghost use Rattle.ada_compound_parts.specs.inner.ReadingParts as parts;

use ada_expr_parser::joining::with;
use ada_expr_parser::{Item, ParseError, Symbol, expect};
use ada_phrase_parser::{expect_again, from_to};
use ada_tree::{Arm, Body, CaseArm, Expr, Scheme, Span, Stmt, StmtKind, Word};

/// Behind the last part of an `if`: its end.
#[tactic(auto, using(crate::proofs::Steps::steps, ada_tree::proofs::Rows::rows))]
pub fn if_end<'a>(
    lead: Span,
    arms: Vec<Arm>,
    otherwise: Option<Vec<Stmt>>,
    items: &'a [Item],
) -> Result<(Stmt, &'a [Item]), ParseError>
    ensures tree { Gives (λ x. plain_stmt x.0) (λ x. x.1.now) result (reading.key_then key.End (reading.key_then key.If (reading.closed (λ close. SIf (arms_of (map plain_arm arms.items)) (seen_maybe otherwise) (from_to lead close)))) items.now) }
    ensures shorter { IfOk result (λ x. length x.1.now < length items.now) }
{
    let (_, rest) = expect(Symbol::End, items)?;
    let (_, rest) = expect(Symbol::If, rest)?;
    let (close, rest) = expect(Symbol::Semicolon, rest)?;
    let span = from_to(lead, close);
    Ok((
        Stmt {
            kind: StmtKind::If { arms, otherwise },
            span,
        },
        rest,
    ))
}

/// Behind the last choice of a `case`: its end.
#[tactic(auto, using(crate::proofs::Steps::steps, ada_tree::proofs::Rows::rows, crate::proofs::Seen::maybe_is))]
pub fn case_end<'a>(
    lead: Span,
    selector: Expr,
    arms: Vec<CaseArm>,
    others: Option<Vec<Stmt>>,
    items: &'a [Item],
) -> Result<(Stmt, &'a [Item]), ParseError>
    ensures tree { Gives (λ x. plain_stmt x.0) (λ x. x.1.now) result (reading.key_then key.End (reading.key_then key.Case (reading.closed (λ close. SCase (plain_expr selector) (case_arms_of (map plain_case_arm arms.items)) (parts.maybe (option_map (λ v. seen v.items) others)) (from_to lead close)))) items.now) }
    ensures shorter { IfOk result (λ x. length x.1.now < length items.now) }
{
    let (selector, (_, rest)) = with(selector, expect(Symbol::End, items))?;
    let (selector, (_, rest)) = with(selector, expect(Symbol::Case, rest))?;
    let (selector, (close, rest)) = with(selector, expect(Symbol::Semicolon, rest))?;
    let span = from_to(lead, close);
    Ok((
        Stmt {
            kind: StmtKind::Case {
                selector,
                arms,
                others,
            },
            span,
        },
        rest,
    ))
}

/// Behind the statements of a loop: its end, with its name if it has one.
#[tactic(auto, using(crate::proofs::Steps::steps))]
pub fn loop_end<'a>(
    name: Option<Word>,
    lead: Span,
    scheme: Option<Scheme>,
    stmts: Vec<Stmt>,
    items: &'a [Item],
) -> Result<(Stmt, &'a [Item]), ParseError>
    ensures tree { Gives (λ x. plain_stmt x.0) (λ x. x.1.now) result (reading.key_then key.End (reading.key_then key.Loop (parts.loop_end name (λ close. SLoop name (option_map plain_scheme scheme) (seen stmts.items) (from_to lead close)))) items.now) }
    ensures shorter { IfOk result (λ x. length x.1.now < length items.now) }
{
    let (_, rest) = expect(Symbol::End, items)?;
    let (_, rest) = expect(Symbol::Loop, rest)?;
    loop_name(name, lead, scheme, stmts, rest)
}

// The name of a loop once more, if it has one, and its semicolon.
#[tactic(auto, using(crate::proofs::Steps::steps))]
fn loop_name<'a>(
    name: Option<Word>,
    lead: Span,
    scheme: Option<Scheme>,
    stmts: Vec<Stmt>,
    items: &'a [Item],
) -> Result<(Stmt, &'a [Item]), ParseError>
    ensures tree { Gives (λ x. plain_stmt x.0) (λ x. x.1.now) result (parts.loop_end name (λ close. SLoop name (option_map plain_scheme scheme) (seen stmts.items) (from_to lead close)) items.now) }
    ensures shorter { IfOk result (λ x. length x.1.now < length items.now) }
{
    match name {
        None => loop_close(name, lead, scheme, stmts, items),
        Some(word) => {
            let (scheme, rest) = with(scheme, expect_again(word, items))?;
            loop_close(name, lead, scheme, stmts, rest)
        }
    }
}

// The semicolon of a loop.
#[tactic(auto, using(crate::proofs::Steps::steps, ada_tree::proofs::Rows::rows))]
fn loop_close<'a>(
    name: Option<Word>,
    lead: Span,
    scheme: Option<Scheme>,
    stmts: Vec<Stmt>,
    items: &'a [Item],
) -> Result<(Stmt, &'a [Item]), ParseError>
    ensures tree { Gives (λ x. plain_stmt x.0) (λ x. x.1.now) result (reading.closed (λ close. SLoop name (option_map plain_scheme scheme) (seen stmts.items) (from_to lead close)) items.now) }
    ensures shorter { IfOk result (λ x. length x.1.now < length items.now) }
{
    let (scheme, (close, rest)) = with(scheme, expect(Symbol::Semicolon, items))?;
    let span = from_to(lead, close);
    Ok((
        Stmt {
            kind: StmtKind::Loop {
                name,
                scheme,
                stmts,
            },
            span,
        },
        rest,
    ))
}

/// Behind the last part of a block that begins at `lead`: `end ;`.
#[tactic(auto, using(crate::proofs::Steps::steps, ada_tree::proofs::Rows::rows))]
pub fn block_end<'a>(
    lead: Span,
    body: Body,
    items: &'a [Item],
) -> Result<(Stmt, &'a [Item]), ParseError>
    ensures tree { Gives (λ x. plain_stmt x.0) (λ x. x.1.now) result (reading.key_then key.End (reading.closed (λ close. SBlock (plain_body body) (from_to lead close))) items.now) }
    ensures shorter { IfOk result (λ x. length x.1.now < length items.now) }
{
    let (_, rest) = expect(Symbol::End, items)?;
    let (last, rest) = expect(Symbol::Semicolon, rest)?;
    let span = from_to(lead, last);
    Ok((
        Stmt {
            kind: StmtKind::Block(body),
            span,
        },
        rest,
    ))
}
