//! What a token is.

use crate::symbols::Symbol;
use std::mem::size_of;

/// The kind of a token: a reserved word or a delimiter, or one of the kinds that have many texts.
#[derive(Clone, Copy, Debug, PartialEq, Eq)]
pub enum TokenKind {
    /// A reserved word (2.9) or a delimiter (2.2).
    Symbol(Symbol),
    /// An identifier that is no reserved word (2.3).
    Name,
    /// An integer literal by its value, at most 2147483647 (2.4.1).
    Integer(u32),
    /// A real literal by its value in thousandths, at most 86400000: the length of a delay.
    Duration(u32),
    /// A string literal (2.6).
    Text,
}

/// A token of a text: the bytes from `start`, counted from 0, up to and without `end`.
#[derive(Clone, Copy, Debug, PartialEq, Eq)]
pub struct Token {
    pub kind: TokenKind,
    pub start: u32,
    pub end: u32,
}

// A list of tokens takes sixteen bytes for each.
const _: () = prove!(size_of::<Token>() == 16);
