//! The cases of the outside: choices that are listed or seeded, files and outputs in memory.

mod memory;
mod seeds;

pub use memory::{choices, loads, sink};
pub use seeds::seeded;
