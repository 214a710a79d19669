//! What the normal form of a program has in common with the program, part by part: types, units, numbers, statements.
pub mod asked;
pub mod checked;
pub mod entries;
pub mod numbers;
pub mod once;
pub mod placed;
pub mod typed;
pub mod types;
pub mod units;
