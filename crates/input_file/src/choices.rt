// Reading a choice file.

ghost use Rattle.std.specs.Prelude.{◌≡◌, ◌≢◌, ◌<◌, ◌+◌, ◌-◌, ◌^◌, ◌++◌, [], ◌∷◌, ℕ, List, length, IfOk, IfErr, MatchResult, true, Some, None, option_map, option_and_then, if◌then◌else◌};
ghost use Rattle.std.specs.List.{concat};
ghost use Rattle.seq_file.specs.text_lines.LineFiles.{HasFirstFault};
ghost use Rattle.seq_file.specs.text_lines.Lines.{first_line};
ghost use Rattle.seq_file.specs.text_lines.Numerals.{small_number};
ghost use Rattle.input_file.specs.declared.errors.InputError.{InputError};
ghost use Rattle.input_file.specs.declared.errors.InputError.TheVariants.{Memory};
ghost use Rattle.input_file.specs.ChoiceFiles.{choice_format, choice_fault, choices_of_line, ChoicesRead};
ghost use Rattle.input_file.specs.inner.NextLines.{IsNextChoices};

use super::errors::InputError;
use seq_file::text_lines::{behind_header, cut_at, small_number};
use std::alloc::Global;

const MOST_CHOICES: usize = 4000000;

/// The choices of a choice file, in order.
///
/// `Ok` comes exactly where the bytes are a choice file. Otherwise the error is the fault of the first bad line.
/// `Memory` alone may stand for either answer. The list of choices takes memory, and nothing else does.
pub fn read_choices(alloc: Global, bytes: &[u8]) -> Result<Vec<u32>, InputError>
    requires { length bytes.now < 2 ^ 32 - 1 }
    ensures reads { IfOk result (λ found. ChoicesRead bytes.now found.items) }
    ensures first_fault { IfErr result (λ error. error ≢ Memory → HasFirstFault choice_format bytes.now error) }
    ensures only_choices { (wanted : List ℕ) → ChoicesRead bytes.now wanted
        → MatchResult result (λ found. found.items ≡ wanted) (λ error. error ≡ Memory) }
    ensures only_fault { (fault : InputError) → HasFirstFault choice_format bytes.now fault
        → MatchResult result (λ found. ⊥) (λ error. error ≢ Memory → error ≡ fault) }
{
    let Some(mut rest) = behind_header(bytes, b"ded-choices 1") else {
        return Err(InputError::BadLine { line: 1 });
    };
    let mut choices = Vec::new(alloc);
    let mut number: u32 = 2;
    while !rest.is_empty() {
        rest = match next_line(&mut choices, rest, number) {
            Ok(behind) => behind,
            Err(error) => return Err(error),
        };
        number += 1;
    }
    Ok(choices)
}

// Adds the choices of the next line, which has this number, and gives what stands behind it.
fn next_line<'a>(
    choices: &mut Vec<u32>,
    rest: &'a [u8],
    number: u32,
) -> Result<&'a [u8], InputError>
    ensures read { (lines : List (List ℕ)) → choices.old.items ≡ concat lines → number ≡ length lines + 2
        → IfOk result (λ behind. IsNextChoices lines rest.now choices.new.items behind.now) }
    ensures fault { (lines : List (List ℕ)) → choices.old.items ≡ concat lines → number ≡ length lines + 2
        → IfErr result (λ error. error ≢ Memory → choice_fault lines (option_and_then choices_of_line (first_line rest.now)) ≡ Some error) }
{
    let Some((line, behind)) = cut_at(rest, b'\n') else {
        return Err(InputError::BadLine { line: number });
    };
    let good = match add_line(choices, line) {
        Ok(good) => good,
        Err(error) => return Err(error),
    };
    if !good {
        return Err(InputError::BadLine { line: number });
    }
    if choices.len() > MOST_CHOICES {
        return Err(InputError::TooMany {
            limit: MOST_CHOICES as u32,
        });
    }
    Ok(behind)
}

// Adds the choices of a line, and tells whether it is one.
fn add_line(choices: &mut Vec<u32>, line: &[u8]) -> Result<bool, InputError>
    ensures is { IfOk result (λ good. option_map (λ added. choices.old.items ++ added) (choices_of_line line.now) ≡ (if good then Some choices.new.items else None)) }
    ensures memory { IfErr result (λ error. error ≡ Memory) }
{
    let mut rest = line;
    while let Some((word, behind)) = cut_at(rest, b' ') {
        let good = match add_word(choices, word) {
            Ok(good) => good,
            Err(error) => return Err(error),
        };
        if !good {
            return Ok(false);
        }
        rest = behind;
    }
    add_word(choices, rest)
}

// Adds the choice of a word, and tells whether it is one.
fn add_word(choices: &mut Vec<u32>, word: &[u8]) -> Result<bool, InputError>
    ensures is { IfOk result (λ good. option_map (λ n. choices.old.items ++ n ∷ []) (small_number word.now) ≡ (if good then Some choices.new.items else None)) }
    ensures memory { IfErr result (λ error. error ≡ Memory) }
{
    match small_number(word) {
        Some(choice) => add(choices, choice),
        None => Ok(false),
    }
}

fn add(choices: &mut Vec<u32>, choice: u32) -> Result<bool, InputError>
    ensures added { IfOk result (λ good. good ≡ true) }
    ensures is { IfOk result (λ good. choices.new.items ≡ choices.old.items ++ choice ∷ []) }
    ensures memory { IfErr result (λ error. error ≡ Memory) }
{
    match choices.push(choice) {
        Ok(()) => Ok(true),
        Err(_) => Err(InputError::Memory),
    }
}
