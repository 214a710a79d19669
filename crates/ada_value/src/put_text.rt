//! The text that PUT and PUT_LINE write (14.3 of ANSI/MIL-STD-1815A): the words of their parts, integers, and 'IMAGE (3.5.5).

mod images;
mod part_texts;

pub use part_texts::put_parts;
