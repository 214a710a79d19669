//! Why a command stops where a sequence is refused.

ghost use Rattle.std.specs.Prelude.{◌≡◌};
ghost use Rattle.debug_outcome.specs.Coming.{stop_by};
ghost use Rattle.debug_outcome.specs.sequences.BadSequences.{refusal_of_sequence};

use crate::{Listed, Refusal, SequenceFault, Stop};
use seq_file::SeqError;

/// Why a command stops where a reader of sequences, in either format, answers this error: the fault of the first bad line with that line, the limit of a file
/// with too many events, or want of memory.
pub fn sequence_failure<'w>(error: SeqError) -> Stop<'w>
    ensures { result ≡ stop_by (refusal_of_sequence error) }
{
    match error {
        SeqError::BadLine { line } => refused_at(SequenceFault::BadLine, line),
        SeqError::OtherProgram { line } => refused_at(SequenceFault::OtherProgram, line),
        SeqError::BadNumber { line } => refused_at(SequenceFault::BadNumber, line),
        SeqError::AfterEnd { line } => refused_at(SequenceFault::AfterEnd, line),
        SeqError::TooMany { limit } => Stop::Refused(Refusal::TooMany {
            what: Listed::Events,
            limit,
        }),
        SeqError::Memory => Stop::Memory,
    }
}

// The refusal of a sequence at a line.
fn refused_at<'w>(fault: SequenceFault, line: u32) -> Stop<'w>
    ensures { result ≡ Stop.Refused (Refusal.BadSequence fault line) }
{
    Stop::Refused(Refusal::BadSequence { fault, line })
}
