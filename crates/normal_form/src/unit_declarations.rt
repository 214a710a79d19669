//! The declarations of a normal form: those that stand first, one task for each number, and copies of bodies.

mod copies;
mod first;
mod groups;
mod running;
mod tasks;

pub use copies::{Copied, push_copies};
pub use first::push_firsts;
pub use running::Running;
pub use tasks::push_tasks;
