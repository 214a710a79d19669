//! Texts, as far as they are short enough for 32 bits, and their tokens and items.

use ada_expr_parser::{Items, read_items};
use ada_lexer::{LexError, Token, tokens};
use ada_tree::Memory;
use std::alloc::Global;

/// The tokens of a text, or its first fault; of a text past 32 bits want of memory.
pub fn tokens_of(alloc: Global, text: &[u8]) -> Result<Vec<Token>, LexError> {
    if text.len() < 0xFFFF_FFFF {
        tokens(alloc, text)
    } else {
        Err(LexError::Memory)
    }
}

/// The items of a text, or the first fault of its tokens.
pub fn items_of(alloc: Global, text: &[u8]) -> Result<Items, LexError> {
    if text.len() >= 0xFFFF_FFFF {
        return Err(LexError::Memory);
    }
    let found = match tokens(alloc, text) {
        Ok(found) => found,
        Err(fault) => return Err(fault),
    };
    match read_items(alloc, text, &found) {
        Ok(items) => Ok(items),
        Err(Memory) => Err(LexError::Memory),
    }
}
