//! Progress by events alone: which tasks are closed, which are served and by whom, and which event the earlier events let come next.

mod progress;
mod task_records;

pub use progress::Progress;
