//! Pragma PRIORITY (2.8, 9.8).

ghost use Rattle.std.specs.Prelude.{◌≡◌, ◌<◌, codes, IfOk, length};
ghost use Rattle.ada_tree.specs.PlainExpr.{plain_expr};
ghost use Rattle.ada_tree.specs.PlainDecl.{plain_decl, DPragma};
ghost use Rattle.ada_expr_parser.specs.Trees.{from_to};
ghost use Rattle.ada_expr_parser.specs.Gives.{Gives};
ghost use Rattle.ada_phrase_parser.specs.Spelling.{id_of};
ghost use Rattle.ada_task_parser.specs.inner.ReadingTasks as tasks;
ghost use Rattle.ada_task_parser.specs.inner.TaskViews as task_views;
ghost use Rattle.ada_decl_parser.specs.inner.DeclViews as views;
ghost use Rattle.ada_phrase_parser.specs.Views.{told};

use ada_expr_parser::{Item, ParseError, Symbol, expect, read_expr};
use ada_phrase_parser::{Source, expect_id, from_to};
use ada_tree::{Decl, DeclKind, Expr, NameId, Span};
use std::alloc::Global;

/// Behind `pragma`: the expression, and the place of the semicolon. `priority` is the id of PRIORITY.
#[tactic(auto, using(crate::proofs::Steps::steps))]
pub(crate) fn read_priority<'a>(
    alloc: Global,
    depth: u32,
    priority: NameId,
    items: &'a [Item],
) -> Result<(Expr, Span, &'a [Item]), ParseError>
    ensures tree { Gives (λ x. views.with_close (plain_expr x.0) x.1) (λ x. x.2.now) result (task_views.priority_by priority.0 depth views.with_close items.now) }
    ensures shorter { IfOk result (λ x. length x.2.now < length items.now) }
{
    let (_, rest) = expect_id(priority.0, items)?;
    let (_, rest) = expect(Symbol::LeftParen, rest)?;
    let (value, _, rest) = read_expr(alloc, depth, rest)?;
    let (_, rest) = expect(Symbol::RightParen, rest)?;
    let (close, rest) = expect(Symbol::Semicolon, rest)?;
    Ok((value, close, rest))
}

/// Behind `pragma`, as a declaration.
#[tactic(auto, using(crate::proofs::Steps::steps))]
pub fn read_pragma<'a>(
    alloc: Global,
    source: &Source<'_>,
    depth: u32,
    priority: NameId,
    lead: Span,
    items: &'a [Item],
) -> Result<(Decl, &'a [Item]), ParseError>
    requires id { priority.0 ≡ id_of source.now.names.now (codes "PRIORITY") }
    ensures tree { Gives (λ x. plain_decl x.0) (λ x. x.1.now) result (tasks.priority (told source.now) depth (λ e close. DPragma e (from_to lead close)) items.now) }
    ensures shorter { IfOk result (λ x. length x.1.now < length items.now) }
{
    let (value, close, rest) = read_priority(alloc, depth, priority, items)?;
    let span = from_to(lead, close);
    Ok((
        Decl {
            kind: DeclKind::Pragma { value },
            span,
        },
        rest,
    ))
}
