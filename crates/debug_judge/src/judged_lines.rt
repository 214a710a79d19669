//! Judging the lines of a sequence one after the other.

ghost use Rattle.std.specs.Prelude.{◌≡◌, ◌<◌, ◌-◌, ◌^◌, [], ℕ, List, IfOk, IfErr, MatchOption, Some, length};
ghost use Rattle.event_machine.specs.declared.Event.{Event};
ghost use Rattle.syn_event.specs.Numbering.{Numbering};
ghost use Rattle.seq_file.specs.Files.{most_events, SeqReads, HasFirstFault, header_fault};
ghost use Rattle.seq_file.specs.Stepping.{StandsBehind};
ghost use Rattle.task_machine.specs.Table.{setup_in};
ghost use Rattle.debug_judge.specs.declared.judged_lines.LinesError.TheVariants as errors;
ghost use Rattle.debug_judge.specs.JudgedLines.{AreFound, FailsBy, behind_last};

use crate::judged_events::{LinesVerdict, first_found, give};
use ada_tree::Memory;
use ada_value::Inputs;
use seq_file::{SeqError, SeqLines};
use std::alloc::Global;
use task_links::Links;
use thiserror::Error;

// A sequence has at most this many events.
const MOST_EVENTS: u32 = 200_000;

/// Why the lines of a sequence have no verdict.
#[derive(Clone, Copy, Debug, PartialEq, Eq, Drop, Error)]
pub enum LinesError {
    /// They are no sequence of the program: the fault of the first bad line. It is never want of memory.
    #[error("{0}")]
    Seq(SeqError),
    /// There was no memory for the judge.
    #[error("out of memory")]
    Memory,
}

impl From<Memory> for LinesError {
    ghost from_gives = { λ _ e. e ≡ errors.Memory };

    fn from(_e: Memory) -> LinesError {
        LinesError::Memory
    }
}

/// Judges the lines of a sequence for a program, where a task may make `local_bound` local steps between the events that change it.
///
/// `Ok` comes exactly where the bytes are a sequence of the program, with the verdict of all its events. Otherwise the error is the fault of
/// the first bad line, which may stand behind the event of a verdict that is not feasible: the file is read to its end. `Memory` alone may
/// stand for either answer. One event after the other is read and given to the judge, and none is kept.
pub fn judge_lines<'p>(
    alloc: Global,
    links: &'p Links<'p>,
    inputs: &Inputs,
    bytes: &'p [u8],
    local_bound: u64,
) -> Result<LinesVerdict<'p>, LinesError>
    requires { length bytes.now < 2 ^ 32 - 1 }
    ensures found { IfOk result (AreFound (setup_in links.now inputs.now) links.now.numbers local_bound bytes.now) }
    ensures fault { IfErr result (FailsBy (setup_in links.now inputs.now) links.now.numbers bytes.now) }
{
    let mut lines = match open_lines(links, bytes) {
        Ok(lines) => lines,
        Err(error) => return Err(LinesError::Seq(error)),
    };
    let mut found = first_found(alloc, links, inputs, local_bound)?;
    for _given in 0..MOST_EVENTS {
        match lines.next() {
            Ok(Some(event)) => give(&mut found, &event)?,
            Ok(None) => return Ok(found),
            Err(error) => return Err(LinesError::Seq(error)),
        }
    }
    match fault_behind(&mut lines) {
        Some(error) => Err(LinesError::Seq(error)),
        None => Ok(found),
    }
}

// A reader of the lines of a sequence that stands behind the header.
fn open_lines<'a>(links: &'a Links<'_>, bytes: &'a [u8]) -> Result<SeqLines<'a>, SeqError>
    requires { length bytes.now < 2 ^ 32 - 1 }
    ensures opened { IfOk result (StandsBehind bytes.now links.now.numbers links.now.program.names []) }
    ensures fault { IfErr result (λ error. header_fault links.now.program.names links.now.numbers bytes.now ≡ Some error) }
{
    SeqLines::new(bytes, links.numbers(), &links.program().names)
}

// The fault of a further line behind the last event that a sequence may have, or nothing at the end of the file.
fn fault_behind(lines: &mut SeqLines<'_>) -> Option<SeqError>
    ensures { (bytes : List ℕ) (numbers : Numbering) (names : List (List ℕ)) (events : List Event) → StandsBehind bytes numbers names events lines.old → length events ≡ most_events
        → MatchOption result (SeqReads bytes numbers names events) (HasFirstFault bytes numbers names) }
{
    match lines.next() {
        Ok(None) => None,
        Ok(Some(_)) => Some(SeqError::TooMany { limit: MOST_EVENTS }),
        Err(error) => Some(behind_last(error)),
    }
}

// The fault of a line that has this one, behind the last event that a sequence may have: that it is one too many goes before all but that it
// stands behind the end.
fn behind_last(error: SeqError) -> SeqError
    ensures { result ≡ behind_last error }
{
    match error {
        SeqError::AfterEnd { line } => SeqError::AfterEnd { line },
        SeqError::BadLine { .. }
        | SeqError::OtherProgram { .. }
        | SeqError::BadNumber { .. }
        | SeqError::TooMany { .. }
        | SeqError::Memory => SeqError::TooMany { limit: MOST_EVENTS },
    }
}
