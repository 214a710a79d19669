//! Why a text does not fall into tokens.

use thiserror::Error;

/// The first fault of a text. Places count the text's bytes from 0.
#[derive(Clone, Copy, Debug, PartialEq, Eq, Drop, Error)]
pub enum LexError {
    /// No token, comment or white space begins with the byte at `at`, or the byte stands in a string literal and is no
    /// printable ASCII (2.1, 2.6).
    #[error("the byte at {at} begins no token, or may not stand in a string")]
    BadByte { at: u32 },
    /// The string literal whose first quotation mark is at `at` has no closing one on its line (2.6).
    #[error("the string that begins at byte {at} is not closed on its line")]
    OpenString { at: u32 },
    /// The letters, digits, underscores and points from the digit at `at` on are no number: neither an integer of at
    /// most 2147483647 nor a duration of one to three decimals and at most 86400.000 (2.4 and this project's limits).
    #[error("the number that begins at byte {at} is no integer up to 2147483647 and no duration up to 86400.000 with one to three decimals")]
    BadNumber { at: u32 },
    /// The identifier at `at` has more than 150 bytes, or the content of the string literal at `at` more than 200
    /// (this project's limits).
    #[error("the token that begins at byte {at} is too long: an identifier has at most 150 bytes, a string at most 200")]
    TooLong { at: u32 },
    /// There was no memory for the list of tokens.
    #[error("out of memory")]
    Memory,
}
