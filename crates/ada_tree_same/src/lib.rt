// Whether two programs are the same: equal but for places, names compared by their texts. It takes no memory.
#![tactic(auto, using(crate::proofs::expressions::SameLemmas::places, ada_tree::proofs::Rows::rows))]

mod declaration_parts;
mod declarations;
pub mod expressions;
pub mod statements;
mod whole;

pub use whole::TreeSame;
