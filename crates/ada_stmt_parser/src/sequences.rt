//! Statements one behind the other, one level deeper than what they stand in.

ghost use Rattle.std.specs.Prelude.{◌<◌, ◌≤◌, IfOk, map, length};
ghost use Rattle.ada_expr_parser.specs.readers.Readers.{fronted};
ghost use Rattle.ada_expr_parser.specs.readers.Readers as lawful;
ghost use Rattle.ada_tree.specs.PlainStmt.{plain_stmt, seen, seen_maybe};
ghost use Rattle.ada_expr_parser.specs.Gives.{Gives};
ghost use Rattle.ada_stmt_parser.specs.inner.ReadingStatements as statements;
ghost use Rattle.ada_phrase_parser.specs.Views.{told};

use crate::statements::read_stmt;
use ada_compound_parts::begins_stmt;
use ada_expr_parser::{Item, ParseError, Symbol};
use ada_phrase_parser::{Source, add, stands};
use ada_tree::Stmt;
use std::alloc::Global;

// A statement.
#[tactic(auto, using(crate::proofs::Inner::inward))]
#[cycle(stmt)]
fn stmt_below<'a>(
    alloc: Global,
    source: &Source<'_>,
    depth: u32,
    items: &'a [Item],
) -> Result<(Stmt, &'a [Item]), ParseError>
    requires { 0 < depth }
    ensures tree { Gives (λ x. plain_stmt x.0) (λ x. x.1.now) result ((statements.inner_at (told source.now) depth).stmt items.now) }
    ensures shorter { IfOk result (λ x. length x.1.now < length items.now) }
{
    read_stmt(alloc, source, depth - 1, items)
}

// Further statements at the end of a list, as long as one begins.
#[tactic(auto, using(crate::proofs::Inner::inward))]
#[cycle(stmt)]
fn stmts_onto<'a>(
    alloc: Global,
    source: &Source<'_>,
    depth: u32,
    list: &mut Vec<Stmt>,
    items: &'a [Item],
) -> Result<&'a [Item], ParseError>
    requires { 0 < depth }
    ensures tree { Gives (λ x. map plain_stmt list.new.items) (λ x. x.now) result (fronted (map plain_stmt list.old.items) (lawful.items statements.begins_stmt (statements.inner_at (told source.now) depth).stmt items.now)) }
    ensures shorter { IfOk result (λ x. length x.now ≤ length items.now) }
{
    let mut rest = items;
    'stmts: loop {
        let [next, ..] = rest else {
            return Err(ParseError::Syntax { at: 0 });
        };
        if !begins_stmt(*next) {
            return Ok(rest);
        }
        let (stmt, behind) = stmt_below(alloc, source, depth, rest)?;
        add(list, stmt)?;
        rest = behind;
    }
}

/// Statements, one at least.
#[tactic(auto, using(crate::proofs::Inner::inward))]
#[cycle(stmt)]
pub(crate) fn stmts<'a>(
    alloc: Global,
    source: &Source<'_>,
    depth: u32,
    items: &'a [Item],
) -> Result<(Vec<Stmt>, &'a [Item]), ParseError>
    requires { 0 < depth }
    ensures tree { Gives (λ x. seen x.0.items) (λ x. x.1.now) result (statements.stmts (statements.inner_at (told source.now) depth) items.now) }
    ensures shorter { IfOk result (λ x. length x.1.now < length items.now) }
{
    let (first, rest) = stmt_below(alloc, source, depth, items)?;
    let mut list = Vec::new(alloc);
    add(&mut list, first)?;
    let rest = stmts_onto(alloc, source, depth, &mut list, rest)?;
    Ok((list, rest))
}

/// Statements, some or none.
#[tactic(auto, using(crate::proofs::Inner::inward))]
#[cycle(stmt)]
pub(crate) fn any_stmts<'a>(
    alloc: Global,
    source: &Source<'_>,
    depth: u32,
    items: &'a [Item],
) -> Result<(Vec<Stmt>, &'a [Item]), ParseError>
    requires { 0 < depth }
    ensures tree { Gives (λ x. seen x.0.items) (λ x. x.1.now) result (statements.any_stmts (statements.inner_at (told source.now) depth) items.now) }
    ensures shorter { IfOk result (λ x. length x.1.now ≤ length items.now) }
{
    let mut list = Vec::new(alloc);
    let rest = stmts_onto(alloc, source, depth, &mut list, items)?;
    Ok((list, rest))
}

/// `else` and statements, or nothing.
#[tactic(auto, using(crate::proofs::Inner::inward))]
#[cycle(stmt)]
pub(crate) fn else_part<'a>(
    alloc: Global,
    source: &Source<'_>,
    depth: u32,
    items: &'a [Item],
) -> Result<(Option<Vec<Stmt>>, &'a [Item]), ParseError>
    requires { 0 < depth }
    ensures tree { Gives (λ x. seen_maybe x.0) (λ x. x.1.now) result (statements.else_part (statements.inner_at (told source.now) depth) items.now) }
    ensures shorter { IfOk result (λ x. length x.1.now ≤ length items.now) }
{
    let [next, rest @ ..] = items else {
        return Err(ParseError::Syntax { at: 0 });
    };

    if !stands(Symbol::Else, *next) {
        return Ok((None, items));
    }
    let (list, rest) = stmts(alloc, source, depth, rest)?;
    Ok((Some(list), rest))
}
