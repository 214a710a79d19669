//! All declarations of a collecting text with abort statements, in their order.
#![tactic(auto, using(ada_tree::proofs::Rows::rows))]

mod bodies;
mod program;
mod variables;

pub(crate) use program::abort_decls;
