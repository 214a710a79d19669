//! How units and task bodies end (6.3, 9.1).

ghost use Rattle.std.specs.Prelude.{◌<◌, ◌≤◌, IfOk, length};
ghost use Rattle.ada_tree.specs.PlainStmt.{plain_body};
ghost use Rattle.ada_expr_parser.specs.Gives.{Gives};
ghost use Rattle.ada_phrase_parser.specs.Reading as reading;
ghost use Rattle.ada_parser.specs.inner.ReadingDeclarativeParts as declarative;
ghost use Rattle.ada_decl_parser.specs.inner.DeclViews as views;
ghost use Rattle.ada_phrase_parser.specs.Views.{told};

use ada_expr_parser::{Item, ParseError, Symbol, expect};
use ada_phrase_parser::{Source, is_again};
use ada_stmt_parser::unit_body;
use ada_tree::{Body, Span, Word};
use std::alloc::Global;

// `end` with the name or without, and the place of the semicolon.
#[tactic(auto, using(crate::proofs::Steps::steps))]
fn read_end<'a>(name: Word, items: &'a [Item]) -> Result<(Span, &'a [Item]), ParseError>
    ensures tree { Gives (λ x. x.0) (λ x. x.1.now) result (reading.end_of name (λ close. close) items.now) }
    ensures shorter { IfOk result (λ x. length x.1.now < length items.now) }
{
    let (_, items) = expect(Symbol::End, items)?;
    let [next, rest @ ..] = items else {
        return Err(ParseError::Syntax { at: 0 });
    };
    if is_again(name, *next) {
        return expect(Symbol::Semicolon, rest);
    }
    expect(Symbol::Semicolon, items)
}

/// The statements of a unit or of a task's body, from `begin` to the end with its name or without, and the place of the
/// semicolon. At most `depth` levels may stand below the statements.
#[tactic(auto, using(crate::proofs::Steps::steps))]
pub(crate) fn unit_end<'a>(
    alloc: Global,
    source: &Source<'_>,
    depth: u32,
    name: Word,
    items: &'a [Item],
) -> Result<(Body, Span, &'a [Item]), ParseError>
    requires { depth ≤ 299 }
    ensures tree { Gives (λ x. views.with_close (plain_body x.0) x.1) (λ x. x.2.now) result (declarative.unit_end (told source.now) depth name views.with_close items.now) }
    ensures shorter { IfOk result (λ x. length x.2.now < length items.now) }
{
    let (_, rest) = expect(Symbol::Begin, items)?;
    let (body, rest) = unit_body(alloc, source, depth, rest)?;
    let (close, rest) = read_end(name, rest)?;
    Ok((body, close, rest))
}
