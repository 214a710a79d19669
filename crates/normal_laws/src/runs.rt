//! The law of normal forms: a program and its normal form show the same events and outputs.
pub mod callees;
pub mod calls;
pub mod floors;
pub mod forms;
pub mod runs;
pub mod tasks;
pub mod waits;
