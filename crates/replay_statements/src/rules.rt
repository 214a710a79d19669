//! The rewriter of a replay text's statements, and the body of a unit.
#![tactic(auto, using(ada_tree::proofs::Rows::rows, tree_rewriting::proofs::walking::Rows::walked, crate::proofs::rules::Alternatives::alternatives))]

mod aborting;
mod ending;
mod replaying;

pub use ending::replay_body;
