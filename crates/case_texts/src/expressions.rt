//! The cases of tokens and expressions: tokens and their faults, expressions and what is built of them with their trees, and names.

mod expressions;
mod lexing;
mod naming;
mod pieces;
mod trees;

pub use expressions::{Wanted, expression};
pub use lexing::{line_col, token_message, tokens};
pub use naming::names;
