//! If and case statements, behind their first word. What stands in them is one level deeper.

ghost use Rattle.std.specs.Prelude.{◌<◌, ◌≤◌, ◌-◌, IfOk, map, length};
ghost use Rattle.ada_expr_parser.specs.readers.Readers.{fronted};
ghost use Rattle.ada_tree.specs.PlainStmt.{plain_stmt, plain_arm, plain_case_arm, seen};
ghost use Rattle.ada_lexer.specs.declared.symbols.Symbol.TheVariants as key;
ghost use Rattle.ada_expr_parser.specs.Gives.{Gives};
ghost use Rattle.ada_phrase_parser.specs.Reading as reading;
ghost use Rattle.ada_stmt_parser.specs.inner.ReadingStatements as statements;
ghost use Rattle.ada_phrase_parser.specs.Views.{told};
ghost use Rattle.ada_stmt_parser.specs.inner.StmtViews.{case_whens};

use crate::sequences::{else_part, stmts};
use ada_compound_parts::{case_end, if_end, read_choices};
use ada_expr_parser::joining::with;
use ada_expr_parser::{Item, ParseError, Symbol, expect, read_expr};
use ada_phrase_parser::{Source, add, stands};
use ada_tree::{Arm, CaseArm, Span, Stmt};
use std::alloc::Global;

/// Behind `if`.
#[tactic(auto, using(crate::proofs::Inner::inward))]
#[cycle(stmt)]
pub(crate) fn read_if<'a>(
    alloc: Global,
    source: &Source<'_>,
    depth: u32,
    lead: Span,
    items: &'a [Item],
) -> Result<(Stmt, &'a [Item]), ParseError>
    requires { 0 < depth }
    ensures tree { Gives (λ x. plain_stmt x.0) (λ x. x.1.now) result (statements.if_rest (depth - 1) (statements.inner_at (told source.now) depth) lead items.now) }
    ensures shorter { IfOk result (λ x. length x.1.now < length items.now) }
{
    let (arms, rest) = read_arms(alloc, source, depth, items)?;
    let (otherwise, rest) = else_part(alloc, source, depth, rest)?;
    if_end(lead, arms, otherwise, rest)
}

// A condition with its statements.
#[tactic(auto, using(crate::proofs::Inner::inward, ada_tree::proofs::Rows::rows))]
#[cycle(stmt)]
fn read_arm<'a>(
    alloc: Global,
    source: &Source<'_>,
    depth: u32,
    items: &'a [Item],
) -> Result<(Arm, &'a [Item]), ParseError>
    requires { 0 < depth }
    ensures tree { Gives (λ x. plain_arm x.0) (λ x. x.1.now) result (statements.if_arm (depth - 1) (statements.inner_at (told source.now) depth) items.now) }
    ensures shorter { IfOk result (λ x. length x.1.now < length items.now) }
{
    let (test, _, rest) = read_expr(alloc, depth - 1, items)?;
    let (test, (_, rest)) = with(test, expect(Symbol::Then, rest))?;
    let (test, (stmts, rest)) = with(test, stmts(alloc, source, depth, rest))?;
    Ok((Arm { test, stmts }, rest))
}

// A condition with its statements, behind `elsif`.
#[tactic(auto, using(crate::proofs::Inner::inward))]
#[cycle(stmt)]
fn next_arm<'a>(
    alloc: Global,
    source: &Source<'_>,
    depth: u32,
    items: &'a [Item],
) -> Result<(Arm, &'a [Item]), ParseError>
    requires { 0 < depth }
    ensures tree { Gives (λ x. plain_arm x.0) (λ x. x.1.now) result (reading.key_then key.Elsif (statements.if_arm (depth - 1) (statements.inner_at (told source.now) depth)) items.now) }
    ensures shorter { IfOk result (λ x. length x.1.now < length items.now) }
{
    let (_, rest) = expect(Symbol::Elsif, items)?;
    read_arm(alloc, source, depth, rest)
}

// Further conditions, each behind `elsif`, at the end of the list.
#[tactic(auto, using(crate::proofs::Inner::inward))]
#[cycle(stmt)]
fn arms_onto<'a>(
    alloc: Global,
    source: &Source<'_>,
    depth: u32,
    list: &mut Vec<Arm>,
    items: &'a [Item],
) -> Result<&'a [Item], ParseError>
    requires { 0 < depth }
    ensures tree { Gives (λ x. map plain_arm list.new.items) (λ x. x.now) result (fronted (map plain_arm list.old.items) (reading.more_behind key.Elsif (statements.if_arm (depth - 1) (statements.inner_at (told source.now) depth)) items.now)) }
    ensures shorter { IfOk result (λ x. length x.now ≤ length items.now) }
{
    let mut rest = items;
    'arms: loop {
        let [next, ..] = rest else {
            return Err(ParseError::Syntax { at: 0 });
        };
        if !stands(Symbol::Elsif, *next) {
            return Ok(rest);
        }
        let (arm, behind) = next_arm(alloc, source, depth, rest)?;
        add(list, arm)?;
        rest = behind;
    }
}

// Conditions with their statements, one at least.
#[tactic(auto, using(crate::proofs::Inner::inward))]
#[cycle(stmt)]
fn read_arms<'a>(
    alloc: Global,
    source: &Source<'_>,
    depth: u32,
    items: &'a [Item],
) -> Result<(Vec<Arm>, &'a [Item]), ParseError>
    requires { 0 < depth }
    ensures tree { Gives (λ x. map plain_arm x.0.items) (λ x. x.1.now) result (reading.separated key.Elsif (statements.if_arm (depth - 1) (statements.inner_at (told source.now) depth)) items.now) }
    ensures shorter { IfOk result (λ x. length x.1.now < length items.now) }
{
    let (first, rest) = read_arm(alloc, source, depth, items)?;
    let mut list = Vec::new(alloc);
    add(&mut list, first)?;
    let rest = arms_onto(alloc, source, depth, &mut list, rest)?;
    Ok((list, rest))
}

/// Behind `case`.
#[tactic(auto, using(crate::proofs::Inner::inward))]
#[cycle(stmt)]
pub(crate) fn read_case<'a>(
    alloc: Global,
    source: &Source<'_>,
    depth: u32,
    lead: Span,
    items: &'a [Item],
) -> Result<(Stmt, &'a [Item]), ParseError>
    requires { 0 < depth }
    ensures tree { Gives (λ x. plain_stmt x.0) (λ x. x.1.now) result (statements.case_rest (depth - 1) (statements.inner_at (told source.now) depth) lead items.now) }
    ensures shorter { IfOk result (λ x. length x.1.now < length items.now) }
{
    let (selector, _, rest) = read_expr(alloc, depth - 1, items)?;
    let (_, rest) = expect(Symbol::Is, rest)?;
    let (arms, others, rest) = read_case_arms(alloc, source, depth, rest)?;
    case_end(lead, selector, arms, others, rest)
}

// The choices of a `when` with their statements, behind `when`.
#[tactic(auto, using(crate::proofs::Inner::inward, ada_tree::proofs::Rows::rows))]
#[cycle(stmt)]
fn case_part<'a>(
    alloc: Global,
    source: &Source<'_>,
    depth: u32,
    lead: Span,
    items: &'a [Item],
) -> Result<(CaseArm, &'a [Item]), ParseError>
    requires { 0 < depth }
    ensures tree { Gives (λ x. plain_case_arm x.0) (λ x. x.1.now) result (statements.case_part (depth - 1) (statements.inner_at (told source.now) depth) lead items.now) }
    ensures shorter { IfOk result (λ x. length x.1.now < length items.now) }
{
    let (choices, rest) = read_choices(alloc, depth - 1, items)?;
    let (_, rest) = expect(Symbol::Arrow, rest)?;
    let (stmts, rest) = stmts(alloc, source, depth, rest)?;
    Ok((CaseArm { choices, stmts }, rest))
}

// The statements behind `when others`.
#[tactic(auto, using(crate::proofs::Inner::inward))]
#[cycle(stmt)]
fn others_part<'a>(
    alloc: Global,
    source: &Source<'_>,
    depth: u32,
    lead: Span,
    items: &'a [Item],
) -> Result<(Vec<Stmt>, &'a [Item]), ParseError>
    requires { 0 < depth }
    ensures tree { Gives (λ x. seen x.0.items) (λ x. x.1.now) result (statements.others_part (statements.inner_at (told source.now) depth) lead items.now) }
    ensures shorter { IfOk result (λ x. length x.1.now < length items.now) }
{
    let (_, rest) = expect(Symbol::Arrow, items)?;
    stmts(alloc, source, depth, rest)
}

// The choices of a `case` with their statements, the last of which may be for `others`.
#[tactic(auto, using(crate::proofs::Inner::inward))]
#[cycle(stmt)]
fn read_case_arms<'a>(
    alloc: Global,
    source: &Source<'_>,
    depth: u32,
    items: &'a [Item],
) -> Result<(Vec<CaseArm>, Option<Vec<Stmt>>, &'a [Item]), ParseError>
    requires { 0 < depth }
    ensures tree { Gives (λ x. case_whens x.0.items x.1) (λ x. x.2.now) result (statements.whens (statements.case_part (depth - 1) (statements.inner_at (told source.now) depth)) (statements.others_part (statements.inner_at (told source.now) depth)) items.now) }
    ensures shorter { IfOk result (λ x. length x.2.now ≤ length items.now) }
{
    let mut arms = Vec::new(alloc);
    let mut rest = items;
    'arms: loop {
        let [next, behind @ ..] = rest else {
            return Err(ParseError::Syntax { at: 0 });
        };
        if !stands(Symbol::When, *next) {
            return Ok((arms, None, rest));
        }
        let [after, list @ ..] = behind else {
            return Err(ParseError::Syntax { at: 0 });
        };
        if stands(Symbol::Others, *after) {
            let (others, end) = others_part(alloc, source, depth, next.span, list)?;
            return Ok((arms, Some(others), end));
        }
        let (arm, end) = case_part(alloc, source, depth, next.span, behind)?;
        add(&mut arms, arm)?;
        rest = end;
    }
}
