//! Files of inputs and files of choices.

use ada_tree::Memory;
use ada_value::Inputs;
use case_form::Question;
use case_form::programs::Known;
use input_file::{InputError, read_choices, read_inputs};
use std::alloc::Global;

// Of more numbers only the count, the first and the last are written.
const MOST: usize = 10;

/// `inputs`: which tasks have something to read by the question's bytes and what, or the fault of the first bad line.
pub fn inputs(
    alloc: Global,
    known: &Known,
    question: &Question<'_>,
    out: &mut String,
) -> Result<(), Memory> {
    question.ask(out)?;
    match inputs_of(alloc, known, question.text()) {
        Ok(inputs) => put_inputs(&inputs.lists, out),
        Err(error) => put_input_fault(error, out),
    }
}

/// `choices_file`: the choices of the question's bytes, or the fault of the first bad line.
pub fn choices_file(
    alloc: Global,
    question: &Question<'_>,
    out: &mut String,
) -> Result<(), Memory> {
    question.ask(out)?;
    match choices_of(alloc, question.text()) {
        Ok(choices) => put_choices(&choices, out),
        Err(error) => put_input_fault(error, out),
    }
}

// The inputs of a file's bytes; past 32 bits want of memory.
fn inputs_of(alloc: Global, known: &Known, bytes: &[u8]) -> Result<Inputs, InputError> {
    if bytes.len() < 0xFFFF_FFFF {
        read_inputs(alloc, bytes, &known.checked.numbers)
    } else {
        Err(InputError::Memory)
    }
}

// The choices of a file's bytes; past 32 bits want of memory.
fn choices_of(alloc: Global, bytes: &[u8]) -> Result<Vec<u32>, InputError> {
    if bytes.len() < 0xFFFF_FFFF {
        read_choices(alloc, bytes)
    } else {
        Err(InputError::Memory)
    }
}

// The tasks that have something to read, each with its numbers.
fn put_inputs(lists: &[Vec<i32>], out: &mut String) -> Result<(), Memory> {
    let mut is_first = true;
    for (task, list) in lists.iter().enumerate() {
        if !list.is_empty() {
            out.push_str(if is_first { "" } else { "; " })?;
            write!(out, "{task} has ")?;
            put_integers(list, out)?;
            is_first = false;
        }
    }
    if is_first {
        out.push_str("nothing")?;
    }
    Ok(())
}

fn put_integers(list: &[i32], out: &mut String) -> Result<(), Memory> {
    if let ([first, .., last], true) = (list, list.len() > MOST) {
        let count = list.len();
        return Ok(write!(out, "{count}: {first} .. {last}")?);
    }
    for (place, number) in list.iter().enumerate() {
        put_blank(place, out)?;
        write!(out, "{number}")?;
    }
    Ok(())
}

fn put_choices(list: &[u32], out: &mut String) -> Result<(), Memory> {
    if let ([first, .., last], true) = (list, list.len() > MOST) {
        let count = list.len();
        return Ok(write!(out, "{count}: {first} .. {last}")?);
    }
    if list.is_empty() {
        out.push_str("nothing")?;
    }
    for (place, choice) in list.iter().enumerate() {
        put_blank(place, out)?;
        write!(out, "{choice}")?;
    }
    Ok(())
}

// A blank before all but the first.
fn put_blank(place: usize, out: &mut String) -> Result<(), Memory> {
    Ok(out.push_str(if place == 0 { "" } else { " " })?)
}

// The name of a fault, and its line or limit.
fn put_input_fault(error: InputError, out: &mut String) -> Result<(), Memory> {
    match error {
        InputError::BadLine { line } => write!(out, "BadLine {line}")?,
        InputError::UnknownTask { line } => write!(out, "UnknownTask {line}")?,
        InputError::TooMany { limit } => write!(out, "TooMany {limit}")?,
        InputError::Memory => return Err(Memory),
    }
    Ok(())
}
