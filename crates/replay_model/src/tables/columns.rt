// The tables of the controller.

/// A table of the controller, by what it says of each operation: what it is, its task, and the kind, the argument and the index of its permit.
#[derive(Clone, Copy)]
pub enum Column {
    Operation,
    Task,
    Kind,
    Argument,
    Index,
}
