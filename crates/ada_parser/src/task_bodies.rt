//! Task bodies, and what stands behind `task` (9.1). Each reader takes how many levels may stand below the root of each
//! expression of the declarations.

ghost use Rattle.std.specs.Prelude.{◌≡◌, ◌<◌, ◌≤◌, suc, codes, IfOk, map, length};
ghost use Rattle.ada_tree.specs.PlainDecl.{plain_decl, decls_of, DTaskBody};
ghost use Rattle.ada_expr_parser.specs.Trees.{from_to};
ghost use Rattle.ada_expr_parser.specs.Gives.{Gives};
ghost use Rattle.ada_phrase_parser.specs.Spelling.{id_of};
ghost use Rattle.ada_parser.specs.inner.ReadingDeclarativeParts as declarative;
ghost use Rattle.ada_phrase_parser.specs.Views.{told};

use crate::objects::read_objects;
use crate::unit_ends::unit_end;
use ada_expr_parser::{Item, ParseError, Symbol, expect, expect_word};
use ada_phrase_parser::{Source, from_to, is_symbol, word_in};
use ada_task_parser::task_rest;
use ada_tree::{Decl, DeclKind, NameId, Span, Word};
use std::alloc::Global;

// The statements of a task's body, behind its objects. They stand one level higher than a declaration's expressions.
#[tactic(auto, using(crate::proofs::Steps::steps, ada_tree::proofs::Rows::rows))]
fn body_behind<'a>(
    alloc: Global,
    source: &Source<'_>,
    depth: u32,
    lead: Span,
    name: Word,
    objects: Vec<Decl>,
    items: &'a [Item],
) -> Result<(Decl, &'a [Item]), ParseError>
    requires { depth ≤ 298 }
    ensures tree { Gives (λ x. plain_decl x.0) (λ x. x.1.now) result (declarative.unit_end (told source.now) (suc depth) name (λ b close. DTaskBody name (decls_of (map plain_decl objects.items)) b (from_to lead close)) items.now) }
    ensures shorter { IfOk result (λ x. length x.1.now < length items.now) }
{
    let (body, close, rest) = unit_end(alloc, source, depth + 1, name, items)?;
    let span = from_to(lead, close);
    Ok((
        Decl {
            kind: DeclKind::TaskBody {
                name,
                objects,
                body,
            },
            span,
        },
        rest,
    ))
}

// Behind `task body`.
#[tactic(auto, using(crate::proofs::Steps::steps))]
fn task_body<'a>(
    alloc: Global,
    source: &Source<'_>,
    depth: u32,
    lead: Span,
    items: &'a [Item],
) -> Result<(Decl, &'a [Item]), ParseError>
    requires { depth ≤ 298 }
    ensures tree { Gives (λ x. plain_decl x.0) (λ x. x.1.now) result (declarative.task_body (told source.now) depth lead items.now) }
    ensures shorter { IfOk result (λ x. length x.1.now < length items.now) }
{
    let (name, rest) = expect_word(items)?;
    let (_, rest) = expect(Symbol::Is, rest)?;
    let (objects, rest) = read_objects(alloc, depth, rest)?;
    body_behind(alloc, source, depth, lead, name, objects, rest)
}

/// Behind `task`: a body, a task type or a task.
#[tactic(auto, using(crate::proofs::Steps::steps))]
pub(crate) fn read_task<'a>(
    alloc: Global,
    source: &Source<'_>,
    depth: u32,
    priority: NameId,
    lead: Span,
    items: &'a [Item],
) -> Result<(Decl, &'a [Item]), ParseError>
    requires shallow { depth ≤ 298 }
    requires id { priority.0 ≡ id_of source.now.names.now (codes "PRIORITY") }
    ensures tree { Gives (λ x. plain_decl x.0) (λ x. x.1.now) result (declarative.task_at (told source.now) depth lead items.now) }
    ensures shorter { IfOk result (λ x. length x.1.now < length items.now) }
{
    let [next, rest @ ..] = items else {
        return Err(ParseError::Syntax { at: 0 });
    };
    if is_symbol(Symbol::Body, *next) {
        return task_body(alloc, source, depth, lead, rest);
    }
    if is_symbol(Symbol::Type, *next) {
        let (name, rest) = expect_word(rest)?;
        return task_rest(alloc, source, depth, priority, lead, true, name, rest);
    }
    let Some(name) = word_in(*next) else {
        return Err(ParseError::Syntax {
            at: next.span.start,
        });
    };
    task_rest(alloc, source, depth, priority, lead, false, name, rest)
}
