//! The places in the statements of an Ada program, and what is refused first at them.

mod single_statements;
mod statements;

pub use statements::walk_body;
