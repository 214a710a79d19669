//! What every rewriter of programs needs: the nodes that it adds, and its walk through statements.
#![tactic(auto)]

pub mod making;
pub mod walking;
