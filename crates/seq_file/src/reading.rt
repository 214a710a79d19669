// Reading a sequence file.

ghost use Rattle.std.specs.Prelude.{◌≡◌, ◌≢◌, ◌<◌, ◌-◌, ◌^◌, ◌++◌, [], ◌∷◌, OnOk, List, length, IfOk, IfErr, MatchResult, true, Some, None, option_and_then};
ghost use Rattle.event_machine.specs.declared.Event.{Event};
ghost use Rattle.seq_file.specs.declared.errors.SeqError.{SeqError};
ghost use Rattle.seq_file.specs.declared.errors.SeqError.TheVariants.{Memory};
ghost use Rattle.syn_event.specs.DeclaredTasks.{text_of};
ghost use Rattle.seq_file.specs.text_lines.Lines.{first_line};
ghost use Rattle.seq_file.specs.Lines.{is_upper_name, event_of_line};
ghost use Rattle.seq_file.specs.Files.{SeqReads, HasFirstFault, header_fault, line_fault, fault_of_event, is_end};
ghost use Rattle.seq_file.specs.inner.NextEvents.{IsNextEvent, IsEventLine, IsBehindHeader};
ghost use Rattle.seq_file.specs.Short.{IsShort};

use super::errors::SeqError;
use super::lines::{Verdict, header_fault, program_of, read_event};
use crate::text_lines::cut_at;
use ada_tree::Names;
use std::alloc::Global;
use syn_event::{Event, Numbers};

const MOST_EVENTS: usize = 200000;

/// The events of a sequence file, in order.
///
/// `names` are those of the program whose numbers these are, so that main's name is an identifier in upper case.
/// `Ok` comes exactly where the bytes are a file of some events. Otherwise the error is the fault of the first bad line.
/// `Memory` alone may stand for either answer. The list of events takes memory, and nothing else does.
pub fn read_seq(
    alloc: Global,
    bytes: &[u8],
    numbers: &Numbers,
    names: &Names,
) -> Result<Vec<Event>, SeqError>
    requires length { length bytes.now < 2 ^ 32 - 1 }
    requires name { is_upper_name (text_of names.now numbers.now.main) ≡ true }
    ensures reads { IfOk result (λ found. SeqReads bytes.now numbers.now names.now found.items) }
    ensures first_fault { IfErr result (λ error. error ≢ Memory → HasFirstFault bytes.now numbers.now names.now error) }
    ensures only_events { (wanted : List Event) → SeqReads bytes.now numbers.now names.now wanted
        → MatchResult result (λ found. found.items ≡ wanted) (λ error. error ≡ Memory) }
    ensures only_fault { (fault : SeqError) → HasFirstFault bytes.now numbers.now names.now fault
        → MatchResult result (λ found. ⊥) (λ error. error ≢ Memory → error ≡ fault) }
{
    let mut rest = match behind_header(bytes, numbers, names) {
        Ok(rest) => rest,
        Err(error) => return Err(error),
    };
    let mut events = Vec::new(alloc);
    let mut ended = false;
    while !rest.is_empty() {
        let (event, behind) = match next_event(rest, numbers, events.len(), ended) {
            Ok(next) => next,
            Err(error) => return Err(error),
        };
        add(&mut events, event)?;
        ended = is_end(&event);
        rest = behind;
    }
    Ok(events)
}

pub(crate) fn add(events: &mut Vec<Event>, event: Event) -> Result<(), SeqError>
    ensures added { OnOk result (events.new.items ≡ events.old.items ++ event ∷ []) }
    ensures memory { IfErr result (λ error. error ≡ Memory) }
{
    match events.push(event) {
        Ok(()) => Ok(()),
        Err(_) => Err(SeqError::Memory),
    }
}

pub(crate) fn is_end(event: &Event) -> bool
    ensures { result ≡ is_end event.now }
{
    matches!(*event, Event::Z)
}

// What stands behind the header.
pub(crate) fn behind_header<'a>(
    bytes: &'a [u8],
    numbers: &Numbers,
    names: &Names,
) -> Result<&'a [u8], SeqError>
    ensures read { IfOk result (λ behind. IsBehindHeader names.now numbers.now bytes.now behind.now) }
    ensures fault { IfErr result (λ error. header_fault names.now numbers.now bytes.now ≡ Some error) }
    ensures short { IsShort numbers.now }
{
    let program = program_of(numbers, names);
    let Some((line, behind)) = cut_at(bytes, b'\n') else {
        return Err(SeqError::BadLine { line: 1 });
    };
    match header_fault(line, b"1", &program) {
        Some(error) => Err(error),
        None => Ok(behind),
    }
}

// The event of the next line, and what stands behind that line, where so many events stand before it.
fn next_event<'a>(
    rest: &'a [u8],
    numbers: &Numbers,
    count: usize,
    ended: bool,
) -> Result<(Event, &'a [u8]), SeqError>
    requires { count < 2 ^ 32 - 2 }
    ensures read { IfOk result (λ x. IsNextEvent numbers.now ended count rest.now x.0 x.1.now) }
    ensures fault { IfErr result (λ error. line_fault numbers.now ended count rest.now ≡ Some error) }
{
    let number = count as u32 + 2;
    if ended {
        return Err(SeqError::AfterEnd { line: number });
    }
    if count >= MOST_EVENTS {
        return Err(SeqError::TooMany {
            limit: MOST_EVENTS as u32,
        });
    }
    line_event(rest, numbers, number)
}

/// The event of the next line, which has this number in the file, and what stands behind that line.
pub(crate) fn line_event<'a>(
    rest: &'a [u8],
    numbers: &Numbers,
    number: u32,
) -> Result<(Event, &'a [u8]), SeqError>
    ensures read { IfOk result (λ x. IsEventLine numbers.now rest.now x.0 x.1.now) }
    ensures fault { IfErr result (λ error. fault_of_event numbers.now number (option_and_then event_of_line (first_line rest.now)) ≡ Some error) }
{
    let Some((line, behind)) = cut_at(rest, b'\n') else {
        return Err(SeqError::BadLine { line: number });
    };
    match read_event(line, numbers) {
        Verdict::Known(event) => Ok((event, behind)),
        Verdict::BadNumber => Err(SeqError::BadNumber { line: number }),
        Verdict::BadLine => Err(SeqError::BadLine { line: number }),
    }
}
