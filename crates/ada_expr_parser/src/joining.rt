//! A part of a tree that was read, and what another reader answers behind it. What builds a whole of several parts joins them so:
//! no part is owned where another may still be missing, and the text of its drop is not written out at each of these places.

ghost use Rattle.ada_expr_parser.specs.joining.Joining.{Joined};

use crate::ParseError;

/// A part and what was read behind it, or the fault of the latter.
pub fn with<A: Drop, B: Drop>(first: A, second: Result<B, ParseError>) -> Result<(A, B), ParseError>
    ensures { Joined first second result }
{
    match second {
        Ok(b) => Ok((first, b)),
        Err(e) => Err(e),
    }
}
