//! The program LOAD, a task that takes numbers and producers that give them, made from the number of producers.
#![tactic(auto, using(ada_tree::proofs::Rows::rows))]

mod buffer;
mod names;
mod producers;
mod whole;
mod words;

pub use whole::program;
