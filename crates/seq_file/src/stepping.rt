// Reading a sequence file line by line.

ghost use Rattle.std.specs.Prelude.{◌≡◌, ◌<◌, ◌+◌, ◌-◌, ◌^◌, false, Some, IfOk, IfErr, length};
ghost use Rattle.seq_file.specs.Files.{open_fault};
ghost use Rattle.seq_file.specs.inner.NextEvents.{IsEventLine};

use super::errors::SeqError;
use super::reading::{behind_header, is_end, line_event};
use ada_tree::Names;
use syn_event::{Event, Numbers};

/// A sequence file that is read line by line: what stands behind the lines that were read, how many events these had, whether the last was
/// `Z`, and the refusal that was met. It takes no memory, and the events are not counted against a limit.
#[derive(Drop)]
pub struct SeqLines<'a> {
    rest: &'a [u8],
    numbers: &'a Numbers,
    count: u32,
    ended: bool,
    refusal: Option<SeqError>,
    ghost room: { count + length rest.now < 4294967294 },
}

impl<'a> SeqLines<'a> {
    ghost use Rattle.std.specs.Prelude.{ℕ, List, [], None, Err, IfSome};
    ghost use Rattle.event_machine.specs.declared.Event.{Event};
    ghost use Rattle.syn_event.specs.Numbering.{Numbering};
    ghost use Rattle.seq_file.specs.Files.{header_fault};
    ghost use Rattle.seq_file.specs.Stepping.{StandsBehind, AnswersBehind, AgreesOnFile};

    /// A reader that stands behind the header.
    ///
    /// `names` are those of the program whose numbers these are. `Ok` comes exactly where the header has no fault, else the error is that fault.
    pub fn new(
        bytes: &'a [u8],
        numbers: &'a Numbers,
        names: &Names,
    ) -> Result<SeqLines<'a>, SeqError>
        requires { length bytes.now < 2 ^ 32 - 1 }
        ensures opened { IfOk result (λ lines. StandsBehind bytes.now numbers.now names.now [] lines) }
        ensures sound { IfOk result (λ lines. header_fault names.now numbers.now bytes.now ≡ None) }
        ensures fault { IfErr result (λ error. header_fault names.now numbers.now bytes.now ≡ Some error) }
    {
        match behind_header(bytes, numbers, names) {
            Ok(rest) => Ok(SeqLines {
                rest,
                numbers,
                count: 0,
                ended: false,
                refusal: None,
            }),
            Err(error) => Err(error),
        }
    }

    /// The event of the next line, and nothing exactly at the end of the file.
    ///
    /// The error is the fault of the next line. After an error every later call answers the same error.
    pub fn next(&mut self) -> Result<Option<Event>, SeqError>
        ensures refused { IfSome self.old.refusal (λ error. (result ≡ Err error) × (self.new.refusal ≡ Some error)) }
        ensures answers { (bytes : List ℕ) (numbers : Numbering) (names : List (List ℕ)) (events : List Event)
            → StandsBehind bytes numbers names events self.old → AnswersBehind bytes numbers names events result self.new }
        ensures agrees { (bytes : List ℕ) (numbers : Numbering) (names : List (List ℕ)) (events : List Event)
            → StandsBehind bytes numbers names events self.old → AgreesOnFile bytes numbers names events result }
    {
        if let Some(error) = self.refusal {
            return Err(error);
        }
        if self.rest.is_empty() {
            return Ok(None);
        }
        match next_line(self.rest, self.numbers, self.count, self.ended) {
            Ok((event, behind)) => {
                self.rest = behind;
                self.count += 1;
                self.ended = is_end(&event);
                Ok(Some(event))
            }
            Err(error) => {
                self.refusal = Some(error);
                Err(error)
            }
        }
    }
}

// The event of the next line, and what stands behind that line, where so many events stand before it, whatever their number.
fn next_line<'a>(
    rest: &'a [u8],
    numbers: &Numbers,
    count: u32,
    ended: bool,
) -> Result<(Event, &'a [u8]), SeqError>
    requires { count < 2 ^ 32 - 2 }
    ensures read { IfOk result (λ x. (ended ≡ false) × IsEventLine numbers.now rest.now x.0 x.1.now) }
    ensures fault { IfErr result (λ error. open_fault numbers.now ended count rest.now ≡ Some error) }
{
    if ended {
        return Err(SeqError::AfterEnd { line: count + 2 });
    }
    line_event(rest, numbers, count + 2)
}
