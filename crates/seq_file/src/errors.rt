// Why a sequence file is refused.

use thiserror::Error;

/// The fault of the first bad line of a sequence file, which is the only one that counts. Lines are numbered from 1, the header's.
/// Where one line has several faults, the order is `AfterEnd`, `TooMany`, `BadLine`, `OtherProgram`, `BadNumber`.
#[derive(Clone, Copy, Debug, PartialEq, Eq, Drop, Error)]
pub enum SeqError {
    /// The line is not in the grammar, or has no line feed at its end, or the file is empty.
    #[error("line {line} is no line of a sequence file, or does not end with a line feed")]
    BadLine { line: u32 },
    /// The header names another program, or other numbers of tasks and entries.
    #[error("line {line} names another program or other counts")]
    OtherProgram { line: u32 },
    /// A task, an entry, an index or an alternative that the program does not have; main where it can't be: as an acceptor, at its end, aborted.
    #[error("line {line} has a number that the program does not have")]
    BadNumber { line: u32 },
    /// The line follows the line `Z`.
    #[error("line {line} stands behind the end of the sequence")]
    AfterEnd { line: u32 },
    /// A further line stands behind the last event that a file may have.
    #[error("the sequence has more than {limit} events")]
    TooMany { limit: u32 },
    /// There was no memory for the list of events.
    #[error("out of memory")]
    Memory,
}
