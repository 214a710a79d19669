// Why a constraint file is refused.

use thiserror::Error;

/// The fault of the first bad line of a constraint file, which is the only one that counts. Lines are numbered from 1, the header's.
/// Where one line has several faults, the order is `TooMany`, `BadLine`, `BadNumber`.
#[derive(Clone, Copy, Debug, PartialEq, Eq, Drop, Error)]
pub enum ConError {
    /// The line is not in the grammar, or has no line feed at its end, or the file is empty.
    #[error("line {line} is no line of a constraint file, or does not end with a line feed")]
    BadLine { line: u32 },
    /// An exact number that no event of that letter can have in the program.
    #[error("line {line} has a number that the program does not have")]
    BadNumber { line: u32 },
    /// A further line stands behind the last constraint that a file may have.
    #[error("the file has more than {limit} constraints")]
    TooMany { limit: u32 },
    /// There was no memory for the constraints.
    #[error("out of memory")]
    Memory,
}
