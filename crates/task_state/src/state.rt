// The parts of a task.

use crate::frames::Frames;
use task_links::Links;
use task_links::store::Objects;

/// One task: what the names of its program mean, its number, its frames and its variables, the integers of its input with how many of
/// them were read, and the bytes of its output. The parts hang on nothing of each other. A contract sees the task of the definitions
/// by `plain_task`.
#[derive(Drop)]
pub struct TaskState<'p> {
    pub links: &'p Links<'p>,
    pub number: u32,
    pub frames: Frames<'p>,
    pub objects: Objects,
    pub input: Vec<i32>,
    pub next: usize,
    pub output: Vec<u8>,
}
