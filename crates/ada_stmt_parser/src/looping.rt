//! Loops. What stands in them is one level deeper.

ghost use Rattle.std.specs.Prelude.{◌<◌, ◌-◌, IfOk, length};
ghost use Rattle.ada_tree.specs.PlainStmt.{plain_stmt};
ghost use Rattle.ada_expr_parser.specs.Gives.{Gives};
ghost use Rattle.ada_stmt_parser.specs.inner.ReadingStatements as statements;
ghost use Rattle.ada_stmt_parser.specs.inner.Turns as turns;
ghost use Rattle.ada_phrase_parser.specs.Views.{told};

use crate::sequences::stmts;
use ada_compound_parts::{loop_end, loop_scheme};
use ada_expr_parser::joining::with;
use ada_expr_parser::{Item, ParseError};
use ada_phrase_parser::Source;
use ada_tree::{Span, Stmt, Word};
use std::alloc::Global;

/// A loop from its first word on.
#[tactic(auto, using(crate::proofs::Inner::inward))]
#[cycle(stmt)]
pub(crate) fn loop_from<'a>(
    alloc: Global,
    source: &Source<'_>,
    depth: u32,
    name: Option<Word>,
    lead: Span,
    items: &'a [Item],
) -> Result<(Stmt, &'a [Item]), ParseError>
    requires { 0 < depth }
    ensures tree { Gives (λ x. plain_stmt x.0) (λ x. x.1.now) result (turns.loop_from (depth - 1) (statements.inner_at (told source.now) depth) name lead items.now) }
    ensures shorter { IfOk result (λ x. length x.1.now < length items.now) }
{
    let (scheme, rest) = loop_scheme(alloc, depth - 1, items)?;
    let (scheme, (stmts, rest)) = with(scheme, stmts(alloc, source, depth, rest))?;
    loop_end(name, lead, scheme, stmts, rest)
}
