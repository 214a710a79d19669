// Reading an input file.

ghost use Rattle.std.specs.Prelude.{◌≡◌, ◌≢◌, ◌<◌, ◌+◌, ◌-◌, ◌^◌, ◌++◌, [], ◌∷◌, ℕ, ℤ, List, length, IfOk, IfErr, MatchResult, true, Option, Some, None, option_map, option_and_then, if◌then◌else◌};
ghost use Rattle.syn_event.specs.Numbering.{Numbering};
ghost use Rattle.seq_file.specs.text_lines.LineFiles.{HasFirstFault};
ghost use Rattle.seq_file.specs.text_lines.Lines.{first_line, all_of, words_of, with_two};
ghost use Rattle.seq_file.specs.text_lines.Numerals.{count, small_integer};
ghost use Rattle.seq_file.specs.text_lines.Capped.{capped};
ghost use Rattle.input_file.specs.declared.errors.InputError.{InputError};
ghost use Rattle.input_file.specs.declared.errors.InputError.TheVariants.{Memory};
ghost use Rattle.input_file.specs.InputFiles.{InputLine, input_with, input_format, input_fault, input_of_line, InputsRead};
ghost use Rattle.input_file.specs.inner.NextLines.{IsNextInputs};
ghost use Rattle.input_file.specs.inner.Tables.{IsTableOf, plain_line, capped_line};

use super::errors::InputError;
use super::table::{Line, Table, empty_table, lay, line_fault, lists_of};
use ada_value::Inputs;
use seq_file::text_lines::{behind_header, count, cut_at, small_integer};
use std::alloc::Global;
use syn_event::Numbers;

/// The inputs that an input file has for the tasks of a program, those of all tasks from 0.
///
/// `Ok` comes exactly where the bytes are an input file for these tasks. Otherwise the error is the fault of the first bad line.
/// `Memory` alone may stand for either answer. The inputs and a table of the tasks take memory, and nothing else does.
pub fn read_inputs(alloc: Global, bytes: &[u8], numbers: &Numbers) -> Result<Inputs, InputError>
    requires { length bytes.now < 2 ^ 32 - 1 }
    ensures reads { IfOk result (λ found. InputsRead numbers.now bytes.now found) }
    ensures first_fault { IfErr result (λ error. error ≢ Memory → HasFirstFault (input_format numbers.now) bytes.now error) }
    ensures only_inputs { (wanted : List (List ℤ)) → InputsRead numbers.now bytes.now wanted
        → MatchResult result (λ found. found ≡ wanted) (λ error. error ≡ Memory) }
    ensures only_fault { (fault : InputError) → HasFirstFault (input_format numbers.now) bytes.now fault
        → MatchResult result (λ found. ⊥) (λ error. error ≢ Memory → error ≡ fault) }
{
    let tasks = task_count(numbers);
    let Some(mut rest) = behind_header(bytes, b"ded-in 1") else {
        return Err(InputError::BadLine { line: 1 });
    };
    let mut table = match empty_table(alloc, tasks) {
        Ok(table) => table,
        Err(error) => return Err(error),
    };
    let mut number: u32 = 2;
    while !rest.is_empty() {
        rest = match next_line(alloc, &mut table, rest, number) {
            Ok(behind) => behind,
            Err(error) => return Err(error),
        };
        number += 1;
    }
    Ok(Inputs {
        lists: lists_of(table),
    })
}

fn task_count(numbers: &Numbers) -> usize
    ensures is { result ≡ length numbers.now.tasks }
    ensures small { result < 2 ^ 32 }
{
    numbers.tasks.len()
}

// Lays the next line, which has this number, into the table, and gives what stands behind it.
fn next_line<'a>(
    alloc: Global,
    table: &mut Table,
    rest: &'a [u8],
    number: u32,
) -> Result<&'a [u8], InputError>
    requires lists { length table.old.lists.items ≡ length table.old.seen.items }
    ensures read { (numbers : Numbering) (lines : List InputLine) → IsTableOf (length numbers.tasks) lines table.old → number ≡ length lines + 2
        → IfOk result (λ behind. IsNextInputs numbers lines rest.now table.new behind.now) }
    ensures fault { (numbers : Numbering) (lines : List InputLine) → IsTableOf (length numbers.tasks) lines table.old → number ≡ length lines + 2
        → IfErr result (λ error. error ≢ Memory → input_fault numbers lines (option_and_then input_of_line (first_line rest.now)) ≡ Some error) }
{
    let Some((text, behind)) = cut_at(rest, b'\n') else {
        return Err(InputError::BadLine { line: number });
    };
    let found = match read_line(alloc, text) {
        Ok(found) => found,
        Err(error) => return Err(error),
    };
    let Some(line) = found else {
        return Err(InputError::BadLine { line: number });
    };
    match line_fault(table, &line, number) {
        Some(error) => Err(error),
        None => {
            lay(table, line);
            Ok(behind)
        }
    }
}

// What a line says, if it is in the grammar.
fn read_line(alloc: Global, text: &[u8]) -> Result<Option<Line>, InputError>
    ensures is { IfOk result (λ found. option_map plain_line found ≡ option_map capped_line (input_of_line text.now)) }
    ensures memory { IfErr result (λ error. error ≡ Memory) }
{
    match cut_at(text, b' ') {
        Some((task, values)) => read_values(alloc, count(task), values),
        None => Ok(without_values(alloc, count(text))),
    }
}

// The line of this task, if there is one, with no integers.
fn without_values(alloc: Global, task: Option<u64>) -> Option<Line>
    ensures { (o : Option ℕ) → task ≡ option_map capped o → option_map plain_line result ≡ option_map capped_line (with_two input_with o (Some [])) }
{
    match task {
        Some(task) => Some(Line {
            task,
            values: Vec::new(alloc),
        }),
        None => None,
    }
}

// The line of this task, if there is one, with the integers of these words, if they are integers.
fn read_values(alloc: Global, task: Option<u64>, words: &[u8]) -> Result<Option<Line>, InputError>
    ensures is { IfOk result (λ found. (o : Option ℕ) → task ≡ option_map capped o
        → option_map plain_line found ≡ option_map capped_line (with_two input_with o (all_of small_integer (words_of words.now)))) }
    ensures memory { IfErr result (λ error. error ≡ Memory) }
{
    let Some(task) = task else {
        return Ok(None);
    };
    let mut values = Vec::new(alloc);
    match add_values(&mut values, words) {
        Ok(true) => Ok(Some(Line { task, values })),
        Ok(false) => Ok(None),
        Err(error) => Err(error),
    }
}

// Adds the integers of words, and tells whether all are some.
fn add_values(values: &mut Vec<i32>, words: &[u8]) -> Result<bool, InputError>
    ensures is { IfOk result (λ good. option_map (λ added. values.old.items ++ added) (all_of small_integer (words_of words.now)) ≡ (if good then Some values.new.items else None)) }
    ensures memory { IfErr result (λ error. error ≡ Memory) }
{
    let mut rest = words;
    while let Some((word, behind)) = cut_at(rest, b' ') {
        let good = match add_word(values, word) {
            Ok(good) => good,
            Err(error) => return Err(error),
        };
        if !good {
            return Ok(false);
        }
        rest = behind;
    }
    add_word(values, rest)
}

// Adds the integer of a word, and tells whether it is one.
fn add_word(values: &mut Vec<i32>, word: &[u8]) -> Result<bool, InputError>
    ensures is { IfOk result (λ good. option_map (λ z. values.old.items ++ z ∷ []) (small_integer word.now) ≡ (if good then Some values.new.items else None)) }
    ensures memory { IfErr result (λ error. error ≡ Memory) }
{
    match small_integer(word) {
        Some(value) => add(values, value),
        None => Ok(false),
    }
}

fn add(values: &mut Vec<i32>, value: i32) -> Result<bool, InputError>
    ensures added { IfOk result (λ good. good ≡ true) }
    ensures is { IfOk result (λ good. values.new.items ≡ values.old.items ++ value ∷ []) }
    ensures memory { IfErr result (λ error. error ≡ Memory) }
{
    match values.push(value) {
        Ok(()) => Ok(true),
        Err(_) => Err(InputError::Memory),
    }
}
