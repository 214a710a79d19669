//! Why no expression was read.

ghost use Rattle.std.specs.Prelude.{◌≡◌};
ghost use Rattle.ada_expr_parser.specs.declared.errors.ParseError.TheVariants as errors;

use ada_tree::Memory;
use std::alloc::{AllocError, AllocFailed};
use thiserror::Error;

/// Why a reader gave no tree. Places count the text's bytes from 0, and the end of the text is its length.
#[derive(Clone, Copy, Debug, PartialEq, Eq, Drop, Error)]
pub enum ParseError {
    /// The items before the place begin a text, and with the item there they begin none, of any depth.
    #[error("the text at byte {at} is not in the grammar")]
    Syntax { at: u32 },
    /// With the item at the place they begin only texts that are nested too deep.
    #[error("the text at byte {at} is nested too deep")]
    TooDeep { at: u32 },
    /// There was not enough memory.
    #[error("out of memory")]
    Memory,
}

impl From<AllocError> for ParseError {
    ghost from_gives = { λ _ e. e ≡ errors.Memory };

    fn from(_e: AllocError) -> ParseError {
        ParseError::Memory
    }
}

impl<T: Drop> From<AllocFailed<T>> for ParseError {
    ghost from_gives = { λ _ e. e ≡ errors.Memory };

    fn from(_e: AllocFailed<T>) -> ParseError {
        ParseError::Memory
    }
}

impl From<Memory> for ParseError {
    ghost from_gives = { λ _ e. e ≡ errors.Memory };

    fn from(_e: Memory) -> ParseError {
        ParseError::Memory
    }
}
