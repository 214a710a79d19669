// The choices that are made by what is given for them.

ghost use Rattle.std.specs.Prelude.{◌≡◌, IfOk, IfErr};
ghost use Rattle.debug_outcome.specs.files.Giving.{AreShortChoices, given_as};
ghost use Rattle.debug_outcome.specs.Coming.{Stops, stop_by};
ghost use Rattle.debug_core.specs.ChoiceTexts.{AreChoices, AreBadChoices, refusal_of_choices};
ghost use Rattle.debug_core.specs.inner.Started.{choosing_of};

use debug_outcome::files::ChoiceBytes;
use debug_outcome::{InputFault, Listed, Refusal, Stop};
use input_file::{InputError, read_choices};
use std::alloc::Global;

/// How choices are made.
#[derive(Drop)]
pub(crate) enum Choosing {
    /// A list of choices in order, and 0 behind its end.
    FromList(Vec<u32>),
    /// The words of the generator of a seed.
    FromSeed(u64),
}

// The choices that are made by what is given: none, those of a file, or those of a seed.
pub(crate) fn choosing_of<'w>(alloc: Global, choices: &ChoiceBytes) -> Result<Choosing, Stop<'w>>
    requires { AreShortChoices choices.now }
    ensures choosing { IfOk result (λ choosing. AreChoices (given_as choices.now) (choosing_of choosing)) }
    ensures cause { IfErr result (Stops (AreBadChoices (given_as choices.now))) }
{
    match choices {
        ChoiceBytes::Empty => Ok(Choosing::FromList(Vec::new(alloc))),
        ChoiceBytes::In(bytes) => match read_choices(alloc, bytes.as_slice()) {
            Ok(choices) => Ok(Choosing::FromList(choices)),
            Err(error) => Err(choices_failure(error)),
        },
        ChoiceBytes::Seeded(seed) => Ok(Choosing::FromSeed(*seed)),
    }
}

// Why a command stops where a file of choices is refused.
fn choices_failure<'w>(error: InputError) -> Stop<'w>
    ensures { result ≡ stop_by (refusal_of_choices error) }
{
    match error {
        InputError::BadLine { line } => bad_choices(InputFault::BadLine, line),
        InputError::UnknownTask { line } => bad_choices(InputFault::UnknownTask, line),
        InputError::TooMany { limit } => Stop::Refused(Refusal::TooMany {
            what: Listed::Choices,
            limit,
        }),
        InputError::Memory => Stop::Memory,
    }
}

// The refusal of choices with a bad line.
fn bad_choices<'w>(fault: InputFault, line: u32) -> Stop<'w>
    ensures { result ≡ Stop.Refused (Refusal.BadChoices fault line) }
{
    Stop::Refused(Refusal::BadChoices { fault, line })
}
