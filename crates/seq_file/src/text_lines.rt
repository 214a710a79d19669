//! Lines of a text, each ended by a line feed; their words; and numbers in decimal, of any size.
//!
//! `specs/Numerals.antt` says which words write numbers, and `specs/Lines.antt` where a text is cut.

mod cutting;
mod numerals;

pub use cutting::{behind_header, cut_at};
pub use numerals::{count, integer, is_digit, natural, small_integer, small_number};
