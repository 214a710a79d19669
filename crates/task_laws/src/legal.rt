//! What the static rules leave of a legal program, and what a rewritten program has in common with it.

pub mod alike_scopes;
pub mod asked;
pub mod literals;
pub mod rewritten_types;
pub mod rewritten_values;
pub mod sites;
pub mod types;
