//! As what a file that is no sequence of a program is told.

mod failing;

pub use failing::sequence_failure;
