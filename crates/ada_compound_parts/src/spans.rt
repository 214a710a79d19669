//! Places of statements.

ghost use Rattle.std.specs.Prelude.{◌≡◌};
ghost use Rattle.ada_tree.specs.PlainStmt.{seen};
ghost use Rattle.ada_compound_parts.specs.inner.ReadingParts as parts;

use ada_phrase_parser::stands;
use ada_tree::{Span, Stmt};

/// The place of the last of these statements, or of what stands before them.
#[tactic(auto, using(crate::proofs::Seen::last_is))]
pub fn last_span(before: Span, stmts: &[Stmt]) -> Span
    ensures { result ≡ parts.last_span before (seen stmts.now) }
{
    match stmts {
        [.., last] => last.span,
        [] => before,
    }
}
