//! The statements of a collecting text: what a task tells the recorder, what stands in the place of calls, accepts and selective waits, and the bodies of units.
#![tactic(auto, using(ada_tree::proofs::Rows::rows))]

mod bodies;
mod calling;
pub mod kinds;
mod noting;
mod parts;
mod reporter;
mod rewriting;
mod serving;
mod waiting;

pub use bodies::{collect_main, collect_task, tell_at_end};
pub use calling::{call_note, call_telling, entry_of, member_number, task_of};
pub use noting::{note, own_note};
pub use parts::{fails_late, or_null, part_is, raising};
pub use reporter::{Reporter, Tables};
pub use serving::{begin_note, formals_telling, one_word};
pub use waiting::next_delay;
