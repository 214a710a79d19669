// What a run or a judgement starts from.

ghost use Rattle.std.specs.Prelude.{◌≡◌, IfOk, IfErr, IfSome, option_map};
ghost use Rattle.debug_outcome.specs.files.Giving.{IsShort, IsShortStart, inputs_in};
ghost use Rattle.debug_outcome.specs.Coming.{Stops, stop_by};
ghost use Rattle.debug_core.specs.InputTexts.{AreInputs, AreBadInputs, refusal_of_inputs};
ghost use Rattle.debug_core.specs.Starts.{IsStart, IsRefusedStart};
ghost use Rattle.debug_core.specs.inner.Started.{setup_of};

use crate::reading::{LegalProgram, read_legal};
use ada_value::Inputs;
use debug_outcome::files::StartFiles;
use debug_outcome::{InputFault, Listed, Refusal, Stop};
use input_file::{InputError, read_inputs};
use std::alloc::Global;
use syn_event::{Mode, Numbers};

/// A program that meets all static rules, and what its tasks read.
#[derive(Drop)]
pub(crate) struct Start {
    pub(crate) legal: LegalProgram,
    pub(crate) inputs: Inputs,
}

// The program of a text, if it meets all static rules by the mode, with the inputs of its tasks.
pub(crate) fn read_start<'w>(
    alloc: Global,
    files: &StartFiles,
    mode: Mode,
) -> Result<Start, Stop<'w>>
    requires { IsShortStart files.now }
    ensures start { IfOk result (λ start. IsStart files.now.text.items mode (inputs_in files.now) (setup_of start) start.legal.numbers) }
    ensures cause { IfErr result (Stops (IsRefusedStart files.now.text.items mode (inputs_in files.now))) }
{
    let legal = match read_legal(alloc, files.text.as_slice(), mode) {
        Ok(legal) => legal,
        Err(stop) => return Err(stop),
    };
    match inputs_of(alloc, &files.inputs, &legal.numbers) {
        Ok(inputs) => Ok(Start { legal, inputs }),
        Err(stop) => Err(stop),
    }
}

// The inputs of the tasks of these numbers; none without a file.
fn inputs_of<'w>(
    alloc: Global,
    bytes: &Option<Vec<u8>>,
    numbers: &Numbers,
) -> Result<Inputs, Stop<'w>>
    requires { IfSome (option_map (λ v. v.items) bytes.now) IsShort }
    ensures inputs { IfOk result (λ inputs. AreInputs numbers.now (option_map (λ v. v.items) bytes.now) inputs) }
    ensures cause { IfErr result (Stops (AreBadInputs numbers.now (option_map (λ v. v.items) bytes.now))) }
{
    match bytes {
        Some(bytes) => match read_inputs(alloc, bytes.as_slice(), numbers) {
            Ok(inputs) => Ok(inputs),
            Err(error) => Err(inputs_failure(error)),
        },
        None => Ok(Inputs {
            lists: Vec::new(alloc),
        }),
    }
}

// Why a command stops where a file of inputs is refused.
fn inputs_failure<'w>(error: InputError) -> Stop<'w>
    ensures { result ≡ stop_by (refusal_of_inputs error) }
{
    match error {
        InputError::BadLine { line } => bad_inputs(InputFault::BadLine, line),
        InputError::UnknownTask { line } => bad_inputs(InputFault::UnknownTask, line),
        InputError::TooMany { limit } => Stop::Refused(Refusal::TooMany {
            what: Listed::Inputs,
            limit,
        }),
        InputError::Memory => Stop::Memory,
    }
}

// The refusal of inputs with a bad line.
fn bad_inputs<'w>(fault: InputFault, line: u32) -> Stop<'w>
    ensures { result ≡ Stop.Refused (Refusal.BadInputs fault line) }
{
    Stop::Refused(Refusal::BadInputs { fault, line })
}
