//! The whole program over the operating system: its words, its files and its two outputs, handed to the one call that does its work.
#![tactic(auto)]

pub mod real;
mod whole;

pub use whole::run_program;
