//! Statements (ANSI/MIL-STD-1815A chapters 5, 9 and 11): sequences, the compound statements, and bodies with their
//! handlers.
#![tactic(auto)]

mod compound;
mod handled_statements;
mod looping;
mod selecting;
mod sequences;
mod statements;

pub use handled_statements::unit_body;
