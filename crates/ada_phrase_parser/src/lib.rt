//! Pieces that statements and declarations have in common (ANSI/MIL-STD-1815A 2.6, 6.1, 9.5): tests of the next item, rows
//! of names, formals, operands, durations, and what string literals say. Each reader answers what the reading function
//! of `specs/` answers for the same items.
#![tactic(auto)]

mod identifiers;
mod operands;
mod phrases;
mod source;
mod strings;
mod tokens;

pub use identifiers::{expect_id, is_id};
pub use operands::{
    EntryBehind, entry_behind, goes_on_name, is_formal_mark, is_operator, read_operand,
};
pub use phrases::{expect_again, formals_from, is_again, read_delayed, read_formals, read_words};
pub use source::Source;
pub use strings::said;
pub use tokens::{add, from_to, is_symbol, stands, word_in};
