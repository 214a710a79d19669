// Why a run is cut off.

use thiserror::Error;

/// Why a run was cut off. The machine stands behind the actions that were made, and the output has a front of the run's lines.
#[derive(Debug, Drop, Error)]
pub enum RunError {
    /// There was no memory.
    #[error("out of memory")]
    Memory,
    /// A line could not be written; only where the output's count of faults rose.
    #[error("the events cannot be written")]
    Sink,
}
