//! What is read of a text, and what is printed of it.

use ada_parser::ReadError;
use ada_printer::{print, text_len};
use ada_tree::{Memory, Program};
use case_form::programs::{answer_refused, program_of};
use case_form::{Question, put_escaped};
use ded_io::MemorySink;
use std::alloc::Global;

// The room for what is printed of a question.
const ROOM: u64 = 20_000;

/// `read`: whether the question's text is a program, and where it is not.
pub fn read(alloc: Global, question: &Question<'_>, out: &mut String) -> Result<(), Memory> {
    match program_of(alloc, question.text()) {
        Ok(_) => Ok(question.answer(out, "ok")?),
        Err(error) => answer_refused(question, error, out),
    }
}

/// What is printed of a program.
pub fn printed(alloc: Global, program: &Program) -> Result<MemorySink, Memory> {
    let mut sink = MemorySink::new(alloc, Vec::new(alloc), ROOM)?;
    match print(program, &mut sink) {
        Ok(()) => Ok(sink),
        Err(_) => Err(Memory),
    }
}

/// `printed`: what is printed of the question's program.
pub fn print_question(
    alloc: Global,
    question: &Question<'_>,
    out: &mut String,
) -> Result<(), Memory> {
    match program_of(alloc, question.text()) {
        Ok(program) => answer_printed(alloc, question, &program, out),
        Err(error) => answer_refused(question, error, out),
    }
}

fn answer_printed(
    alloc: Global,
    question: &Question<'_>,
    program: &Program,
    out: &mut String,
) -> Result<(), Memory> {
    let sink = printed(alloc, program)?;
    question.ask(out)?;
    put_escaped(out, sink.bytes())?;
    Ok(())
}

/// `text_len`: the length of the text that is printed of the question's program.
pub fn printed_len(alloc: Global, question: &Question<'_>, out: &mut String) -> Result<(), Memory> {
    match program_of(alloc, question.text()) {
        Ok(program) => answer_len(question, text_len(&program), out),
        Err(error) => answer_refused(question, error, out),
    }
}

fn answer_len(question: &Question<'_>, len: u64, out: &mut String) -> Result<(), Memory> {
    question.ask(out)?;
    write!(out, "{len}")?;
    Ok(())
}

/// `fronts`: how many first bytes of the question's text are a program, and of how many the end is not in the grammar.
pub fn fronts(alloc: Global, question: &Question<'_>, out: &mut String) -> Result<(), Memory> {
    let text = question.text();
    question.ask(out)?;
    let mut last = "";
    for len in 0..=text.len() {
        let found = word_of(alloc, text.get(..len).unwrap_or(&[]))?;
        if found != last {
            write!(out, "from {len} {found} ")?;
        }
        last = found;
    }
    out.push_str("to the end")?;
    Ok(())
}

// Whether a text is a program.
fn word_of(alloc: Global, text: &[u8]) -> Result<&'static str, Memory> {
    match program_of(alloc, text) {
        Ok(_) => Ok("ok"),
        Err(ReadError::Syntax { .. }) => Ok("Syntax"),
        Err(ReadError::Memory) => Err(Memory),
        Err(_) => Ok("fault"),
    }
}
