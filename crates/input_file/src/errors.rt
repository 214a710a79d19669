// Why a file of inputs or choices is refused.

use thiserror::Error;

/// The fault of the first bad line of an input file or a choice file, which is the only one that counts. Lines are numbered from 1.
/// Where one line has several faults, the order is `BadLine`, `UnknownTask`, `TooMany`.
#[derive(Clone, Copy, Debug, PartialEq, Eq, Drop, Error)]
pub enum InputError {
    /// The line is not in the grammar, has a number outside 32 bits, is the second of its task, or has no line feed at its end; or the file is empty.
    #[error("line {line} is no line of such a file, or the second of its task, or does not end with a line feed")]
    BadLine { line: u32 },
    /// The line is that of a task that the program does not have.
    #[error("line {line} is that of a task that the program does not have")]
    UnknownTask { line: u32 },
    /// With this line the file has more numbers than it may have.
    #[error("the file has more than {limit} numbers")]
    TooMany { limit: u32 },
    /// There was no memory for the numbers.
    #[error("out of memory")]
    Memory,
}
