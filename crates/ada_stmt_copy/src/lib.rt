// Copies of statements, with the same ids and places, and statements built of their parts.
#![tactic(auto, using(ada_tree::proofs::Rows::rows))]

pub mod building;
mod copying;
pub mod expressions;
mod simple;
mod statements;

pub use copying::StmtCopy;
pub use statements::copy_stmts;
