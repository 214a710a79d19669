//! The replay text of a program and of the lines of a sequence, on the output.

ghost use Rattle.std.specs.Prelude.{◌≡◌, ◌<◌, ◌-◌, ◌^◌, length, true};
ghost use Rattle.ada_tree.specs.PlainProgram.{plain_program};
ghost use Rattle.syn_event.specs.DeclaredTasks.{text_of};
ghost use Rattle.seq_file.specs.Lines.{is_upper_name};
ghost use Rattle.debug_outcome.specs.Coming.{Comes, Never, stop_by};
ghost use Rattle.syn_event.specs.declared.numbering.Mode.TheVariants.{Original};
ghost use Rattle.syn_event.specs.Legal.{Legal};
ghost use Rattle.normal_laws.specs.existence.Laws.{IsLegalOriginal};
ghost use Rattle.debug_collect.specs.replays.ReplayOutcomes.{ReplaysLines, refusal_of_replay};

use ada_tree::{Program, Types};
use debug_outcome::{Listed, Refusal, Stop, write_text};
use debug_sequence::read_sequence;
use ded_io::Sink;
use normal_form::XformError;
use replay_xform::replay;
use std::alloc::Global;
use syn_event::Numbers;

/// Writes the replay text of a legal original with its types and numbers and of the sequence that the lines are, and answers 0. Whatever the
/// inputs and the schedule, that text shows nothing but events of the sequence, in order. It can always go on to all that are feasible, and
/// where it ends it has shown these. The lines may be a list or by tasks. Where they are no sequence of the program it is refused why; so are
/// more events than are replayed, and a text that is longer than a program that is run. All of the text is made before any of it is put.
pub fn write_replay<'w, K: Sink>(
    alloc: Global,
    program: &Program,
    types: &Types,
    numbers: &Numbers,
    lines: &[u8],
    out: &mut K,
) -> Result<u8, Stop<'w>>
    requires legal { IsLegalOriginal (plain_program program.now) }
    requires own { Legal (plain_program program.now) types.now numbers.now Original }
    requires length { length lines.now < 2 ^ 32 - 1 }
    requires name { is_upper_name (text_of program.now.names numbers.now.main) ≡ true }
    ensures { Comes (ReplaysLines (plain_program program.now) types.now numbers.now lines.now) Never (K.told out.old) (K.told out.new) (K.faults out.old) (K.faults out.new) result }
{
    let events = match read_sequence(alloc, lines, numbers, &program.names) {
        Ok(events) => events,
        Err(stop) => return Err(stop),
    };
    match replay(alloc, program, types, numbers, &events) {
        Ok(text) => write_text(&text, out),
        Err(error) => Err(replay_failure(error)),
    }
}

// Why a command stops where a sequence is not replayed.
fn replay_failure<'w>(error: XformError) -> Stop<'w>
    ensures { result ≡ stop_by (refusal_of_replay error) }
{
    match error {
        XformError::TooManyEvents { limit } => Stop::Refused(Refusal::TooMany {
            what: Listed::Events,
            limit,
        }),
        XformError::Memory => Stop::Memory,
    }
}
