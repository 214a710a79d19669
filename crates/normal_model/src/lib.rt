//! The normal form of a program, as definitions in `specs/`: an equivalent program in which all that a synchronizing statement
//! evaluates stands in variables before it, and in which each task is a task of its own. The crate has no code: its definitions are
//! what a rewriter is to be proved against.
#![tactic(auto)]
