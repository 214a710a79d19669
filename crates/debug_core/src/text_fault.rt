// Why a text is read as no program of the language.

ghost use Rattle.std.specs.Prelude.{◌≡◌, ◌<◌, ◌-◌, ◌^◌, length, slice_get};
ghost use Rattle.debug_outcome.specs.Coming.{stop_by};
ghost use Rattle.debug_core.specs.TextFaults.{refusal_of_read, misspelled_at, longest_token};

use ada_lexer::{LexError, line_col};
use ada_parser::ReadError;
use debug_outcome::{Misspelling, Refusal, Stop, TextFault};

// Texts of the language are nested at most this deep.
const NESTING_LIMIT: u32 = 300;

// Why a command stops where the reader refuses the text.
pub(crate) fn text_failure<'w>(text: &[u8], error: ReadError) -> Stop<'w>
    requires { length text.now < 2 ^ 32 - 1 }
    ensures { result ≡ stop_by (refusal_of_read text.now error) }
{
    match error {
        ReadError::Lex(LexError::BadByte { at }) => misspelled(text, Misspelling::BadByte, at),
        ReadError::Lex(LexError::OpenString { at }) => {
            misspelled(text, Misspelling::OpenString, at)
        }
        ReadError::Lex(LexError::BadNumber { at }) => misspelled(text, Misspelling::BadNumber, at),
        ReadError::Lex(LexError::TooLong { at }) => {
            Stop::Refused(Refusal::BadText(TextFault::LongToken {
                limit: token_limit(text, at),
            }))
        }
        ReadError::Lex(LexError::Memory) => Stop::Memory,
        ReadError::Syntax { at } => misspelled(text, Misspelling::Syntax, at),
        ReadError::TooDeep { .. } => Stop::Refused(Refusal::BadText(TextFault::TooNested {
            limit: NESTING_LIMIT,
        })),
        ReadError::Memory => Stop::Memory,
    }
}

// The refusal of a text that breaks a rule at a place.
fn misspelled<'w>(text: &[u8], what: Misspelling, at: u32) -> Stop<'w>
    requires { length text.now < 2 ^ 32 - 1 }
    ensures { result ≡ stop_by (misspelled_at text.now what at) }
{
    let place = line_col(text, at);
    Stop::Refused(Refusal::BadText(TextFault::Misspelled {
        what,
        line: place.line,
        column: place.col,
    }))
}

// How many bytes the token at a place may have: the content of a string, or an identifier.
fn token_limit(text: &[u8], at: u32) -> u32
    ensures { result ≡ longest_token (slice_get text.now at) }
{
    match text.get(at as usize) {
        Some(b'"') => 200,
        _ => 150,
    }
}
