//! The collecting text of a program: module `recorder` has the task that records, `units` all declarations in their order.
#![tactic(auto, using(ada_tree::proofs::Rows::rows))]

mod aborts;
mod names;
mod program;
pub mod recorder;
mod tables;
mod text;
pub mod units;

pub use aborts::first_abort;
pub use names::add_names;
pub use program::collect;
pub use recorder::header_text;
pub use tables::tables_of;
