// What a judge shows of a task.

use task_local::Offer;

/// What a judge shows of a task: that it is closed (it has completed, or is abnormal), that it is a caller in a rendezvous, or what it
/// offers where it stands.
#[derive(Clone, Copy)]
pub enum TaskView<'a> {
    Closed,
    Busy,
    At(Offer<'a>),
}
