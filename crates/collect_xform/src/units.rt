//! All declarations of a collecting text, in their order: the objects of main with what it declares more, the tasks, the recorder, the bodies of units, and the recorder's body.
#![tactic(auto, using(ada_tree::proofs::Rows::rows, crate::proofs::units::Placed::placed))]

mod main_objects;
mod program;
mod tasks;
mod units;
mod variables;

pub use main_objects::{has_int_io, put_main};
pub(crate) use program::collect_decls;
pub use program::put_recorder;
pub use tasks::tell_task;
pub use variables::{put_behind_own, put_variables};
