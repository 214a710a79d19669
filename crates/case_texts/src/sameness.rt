//! The cases of programs that are the same: outlines of what is printed and read again, comparisons, and copies.

mod comparing;
mod outlining;

pub use comparing::{built, copy, same};
pub use outlining::outline;
