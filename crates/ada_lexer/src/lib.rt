//! The tokens of a text in Ada.
//!
//! A text falls into pieces, each the longest that begins at its place: white space, comments, words, numbers, strings
//! and delimiters. `specs/Split.antt` says what the tokens of a text are, and what its first fault is.
#![tactic(auto)]

mod bytes;
mod errors;
mod kinds;
mod lengths;
mod lexing;
mod line_columns;
mod numbers;
mod spellings;
mod strings;
mod symbols;
mod verdicts;

pub use errors::LexError;
pub use kinds::{Token, TokenKind};
pub use lexing::tokens;
pub use line_columns::{LineCol, line_col};
pub use symbols::Symbol;
