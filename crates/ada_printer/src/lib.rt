//! The printed text of an Ada 83 program, on an output or counted; the layout is defined in `specs/`.
#![tactic(auto)]

mod calls;
mod declarations;
mod expressions;
mod names_and_literals;
mod nesting;
mod printing;
mod statement_lines;
mod whole;

pub use printing::{expr_len, print, print_expr, text_len};
