//! The replay text of a program and a sequence of events, as definitions in `specs/`: the normal form of the program, in which each task asks a controller
//! before each event, and the controller lets the tasks go on in the order of the sequence. The crate has no function: its definitions are what a
//! rewriter is to be proved against.
#![tactic(auto)]

pub mod tables;
