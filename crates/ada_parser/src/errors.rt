//! Why a text was not read.

use ada_lexer::LexError;
use thiserror::Error;

/// Why bytes are the text of no program. Places count the bytes from 0, and the end of the text is its length.
#[derive(Clone, Copy, Debug, PartialEq, Eq, Drop, Error)]
pub enum ReadError {
    /// The bytes do not fall into tokens. It is the first fault of the whole text, and goes before all others.
    #[error("{0}")]
    Lex(LexError),
    /// The tokens before the place begin some text that is nested at most 300 deep, and with the token there, or the end
    /// of the text, they begin none, however deep.
    #[error("the text at byte {at} is not in the grammar")]
    Syntax { at: u32 },
    /// The tokens before the place begin some text that is nested at most 300 deep, and with the token there they begin
    /// only texts that are nested deeper.
    #[error("the text at byte {at} is nested more than 300 deep")]
    TooDeep { at: u32 },
    /// There was not enough memory.
    #[error("out of memory")]
    Memory,
}
