//! Static expressions of Ada, and their values.

pub mod named_values;
pub mod operations;
pub mod static_values;
