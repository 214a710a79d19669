//! The collecting text of a program with abort statements, as definitions in `specs/`: the normal form of the program, in which each task tells a recorder
//! what it is about to do or has done, and the recorder makes the aborts and writes the sequence file of the run. The module has no code: its definitions
//! are what a rewriter is to be proved against.

pub mod examples;
