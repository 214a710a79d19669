//! Simple statements (ANSI/MIL-STD-1815A 5.1): null, delay, exit, raise and abort statements, and those that begin with a
//! name: assignments, entry calls, PUT, PUT_LINE, NEW_LINE and GET.
#![tactic(auto)]

mod name_statements;
mod simple;

pub use name_statements::read_word_stmt;
pub use simple::{read_abort, read_delay, read_exit, read_null, read_raise};
