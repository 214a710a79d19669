//! The discrete ranges of an Ada program, and the names that stand for its tasks.

mod extents;
mod task_names;

pub use extents::{Extent, extent_of, is_array_type, range_start, size, width};
pub use task_names::{NamedTasks, task_names_of};
