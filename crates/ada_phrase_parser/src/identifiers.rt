//! Identifiers that must be these and no others.

ghost use Rattle.std.specs.Prelude.{◌≡◌, ◌<◌, IfOk, is_some, length};
ghost use Rattle.ada_expr_parser.specs.readers.Readers.{token};
ghost use Rattle.ada_expr_parser.specs.Gives.{Gives};
ghost use Rattle.ada_phrase_parser.specs.Reading as reading;

use crate::tokens::word_in;
use ada_expr_parser::{Item, ParseError};
use ada_tree::Word;

/// Whether an item is the identifier with this id.
pub fn is_id(id: u32, item: Item) -> bool
    ensures { result ≡ is_some (reading.with_id id item) }
{
    match word_in(item) {
        Some(word) => word.name.0 == id,
        None => false,
    }
}

/// The identifier with this id that must come next.
pub fn expect_id<'a>(id: u32, items: &'a [Item]) -> Result<(Word, &'a [Item]), ParseError>
    ensures tree { Gives (λ x. x.0) (λ x. x.1.now) result (token (reading.with_id id) items.now) }
    ensures shorter { IfOk result (λ x. length x.1.now < length items.now) }
{
    let [next, rest @ ..] = items else {
        return Err(ParseError::Syntax { at: 0 });
    };
    let Some(word) = word_in(*next) else {
        return Err(ParseError::Syntax {
            at: next.span.start,
        });
    };
    if word.name.0 != id {
        return Err(ParseError::Syntax {
            at: next.span.start,
        });
    }
    Ok((word, rest))
}
