//! The outside in memory: choices, files and outputs. The questions of one heading are steps, one behind the other.

use crate::{Stage, ask, put_quoted};
use ded_io::{Chooser, Files, ListChooser, LoadError, MemoryFiles, MemorySink, Sink};
use std::alloc::{AllocError, Global};

// The numbers of a list with blanks between.
fn numbers_of(alloc: Global, list: &str) -> Result<Vec<u64>, AllocError> {
    let mut numbers = Vec::new(alloc);
    for word in list.split_whitespace() {
        numbers.push(word.parse().unwrap_or(0))?;
    }
    Ok(numbers)
}

// A pick through a borrow of the chooser.
fn pick<C: Chooser>(mut chooser: C, count: u32) -> u32
where
    C: Drop,
{
    if count == 0 { 0 } else { chooser.pick(count) }
}

/// `choices WORD..`: the picks of a list of words, each from so many places as the question says.
pub fn choices(alloc: Global, list: &str, steps: &str, out: &mut String) -> Result<(), AllocError> {
    let mut words = Vec::new(alloc);
    for word in list.split_whitespace() {
        words.push(word.parse().unwrap_or(0))?;
    }
    put_choices(&mut ListChooser::new(words), steps, out)
}

fn put_choices(chooser: &mut ListChooser, steps: &str, out: &mut String) -> Result<(), AllocError> {
    for step in steps.lines() {
        ask(step, out)?;
        let place = pick(&mut *chooser, step.parse().unwrap_or(0));
        writeln!(out, "{place}")?;
    }
    Ok(())
}

/// `loads NUMBER..`: what the files of the case give of `NAME LIMIT`, where the loads of these numbers fail, and how many
/// faults there are.
pub fn loads(
    alloc: Global,
    stage: &Stage,
    failing: &str,
    steps: &str,
    out: &mut String,
) -> Result<(), AllocError> {
    let mut files = stage.files(alloc, numbers_of(alloc, failing)?)?;
    put_loads(alloc, &mut files, steps, out)
}

fn put_loads(
    alloc: Global,
    files: &mut MemoryFiles,
    steps: &str,
    out: &mut String,
) -> Result<(), AllocError> {
    for step in steps.lines() {
        ask(step, out)?;
        let (name, limit) = step.rsplit_once(' ').unwrap_or((step, ""));
        put_load(alloc, &mut *files, name, limit.parse().unwrap_or(0), out)?;
        let faults = files.faults();
        writeln!(out, ", {faults} faults")?;
    }
    Ok(())
}

// What a load gives.
fn put_load<F: Files>(
    alloc: Global,
    mut files: F,
    name: &str,
    limit: u64,
    out: &mut String,
) -> Result<(), AllocError>
where
    F: Drop,
{
    match files.load(alloc, name, limit) {
        Ok(bytes) => put_quoted(out, &bytes)?,
        Err(LoadError::Failed) => out.push_str("Failed")?,
        Err(LoadError::TooLong { limit }) => write!(out, "TooLong {limit}")?,
        Err(LoadError::Memory) => return Err(AllocError),
    }
    Ok(())
}

/// `sink ROOM NUMBER..`: whether an output of that room takes the question, where the puts of these numbers fail, and what it has then.
pub fn sink(alloc: Global, given: &str, steps: &str, out: &mut String) -> Result<(), AllocError> {
    let (room, failing) = given.split_once(' ').unwrap_or((given, ""));
    let failing = numbers_of(alloc, failing)?;
    let mut sink = MemorySink::new(alloc, failing, room.parse().unwrap_or(0))?;
    put_steps(&mut sink, steps, out)
}

fn put_steps(sink: &mut MemorySink, steps: &str, out: &mut String) -> Result<(), AllocError> {
    for step in steps.lines() {
        ask(step, out)?;
        let is_taken = put(&mut *sink, step.as_bytes());
        out.push_str(if is_taken { "ok " } else { "Failed " })?;
        put_quoted(out, sink.bytes())?;
        let faults = sink.faults();
        writeln!(out, ", {faults} faults")?;
    }
    Ok(())
}

// A put through a borrow of the output.
fn put<K: Sink>(mut sink: K, bytes: &[u8]) -> bool
where
    K: Drop,
{
    sink.put(bytes).is_ok()
}
