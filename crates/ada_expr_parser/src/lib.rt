//! Expressions, ranges and names of Ada, read from the tokens of a text.
#![tactic(auto)]

mod errors;
mod items;
pub mod joining;
mod levels;
mod nodes;
mod operators;
mod ranges_and_calls;
pub mod readers;
mod reading;

pub use ada_lexer::Symbol;
pub use errors::ParseError;
pub use items::{Item, ItemKind, Items, read_items};
pub use levels::Level;
pub use operators::{begins_expr, expect, expect_word, symbol_in};
pub use ranges_and_calls::{
    read_behind, read_bounds, read_call, read_call_behind, read_choice, read_drange, read_expr,
    read_subind, read_target,
};
