//! Programs with abort statements: which they are, and their collecting texts. Module `recorder` has the task that records and aborts, `units` all declarations in their order.
#![tactic(auto, using(ada_tree::proofs::Rows::rows))]

mod aborts;
mod bodies;
mod calls;
mod choosing;
mod counting;
mod finder;
mod kinds;
mod names;
mod noting;
mod program;
mod recorder;
mod rewriting;
mod services;
mod teller;
mod text;
mod units;
mod waits;

pub use aborts::has_abort;
pub use choosing::collecting;
pub use collect_xform::header_text;
pub use program::collect;
