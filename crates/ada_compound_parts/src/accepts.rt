//! How accept statements end (9.5).

ghost use Rattle.std.specs.Prelude.{◌<◌, IfOk, length};
ghost use Rattle.ada_expr_parser.specs.Gives.{Gives};
ghost use Rattle.ada_phrase_parser.specs.Reading as reading;

use ada_expr_parser::{Item, ParseError, Symbol, expect};
use ada_phrase_parser::is_again;
use ada_tree::{Span, Word};

/// The end of an accept statement, with its name or without: the place of its semicolon.
#[tactic(auto, using(crate::proofs::Steps::steps))]
pub fn read_end_of<'a>(entry: Word, items: &'a [Item]) -> Result<(Span, &'a [Item]), ParseError>
    ensures tree { Gives (λ x. x.0) (λ x. x.1.now) result (reading.end_of entry (λ close. close) items.now) }
    ensures shorter { IfOk result (λ x. length x.1.now < length items.now) }
{
    let (_, items) = expect(Symbol::End, items)?;
    let [next, rest @ ..] = items else {
        return Err(ParseError::Syntax { at: 0 });
    };
    if is_again(entry, *next) {
        let (close, rest) = expect(Symbol::Semicolon, rest)?;
        return Ok((close, rest));
    }
    let (close, rest) = expect(Symbol::Semicolon, items)?;
    Ok((close, rest))
}
