//! The walk of a rewriter through the statements of a program, in place. A rewriter says what becomes of one statement whose parts are rewritten already; the walk goes through all of them, from front to back, with a state on the way.
#![tactic(auto, using(ada_tree::proofs::Rows::rows, crate::proofs::walking::Rows::walked))]

mod pushing;
mod rewriter;
mod walk;

pub use pushing::{push_stmt, push_taken};
pub use rewriter::Rewriter;
pub use walk::{rewrite, rewrite_body};
