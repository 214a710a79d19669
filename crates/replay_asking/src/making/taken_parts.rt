// Parts that may be left out and are there, and parts that are taken from where they stand.

ghost use Rattle.std.specs.Prelude.{◌≡◌, Some, IfOk};
ghost use Rattle.ada_tree.specs.PlainStmt.{plain_body, body, no_stmt, no_handler};
ghost use Rattle.ada_stmt_copy.specs.expressions.Parts.{OkWith};

use ada_stmt_copy::expressions::there;
use ada_tree::{Body, Drange, Init, Memory};
use std::alloc::Global;
use std::mem;

/// A range that is there.
pub fn there_drange(part: Result<Drange, Memory>) -> Result<Option<Drange>, Memory>
    ensures { IfOk result (λ made. OkWith part (λ x. made ≡ Some x)) }
{
    there(part)
}

/// An initial value that is there.
pub fn there_init(part: Result<Init, Memory>) -> Result<Option<Init>, Memory>
    ensures { IfOk result (λ made. OkWith part (λ x. made ≡ Some x)) }
{
    there(part)
}

/// A body, taken from where it stands; an empty one is left.
pub fn take_body(alloc: Global, place: &mut Body) -> Body
    ensures taken { plain_body result ≡ plain_body place.old }
    ensures left { plain_body place.new ≡ body no_stmt no_handler }
{
    mem::replace(
        place,
        Body {
            stmts: Vec::new(alloc),
            handlers: Vec::new(alloc),
        },
    )
}
