//! Whole calls of the program.

use ada_tree::Memory;
use case_form::{Failing, Question, Stage, ask, put_lines, put_quoted};
use debug_core::debug_main;
use ded_io::MemorySink;
use std::alloc::{AllocError, Global};

/// What a call gave.
#[derive(Drop)]
struct Given {
    status: u8,
    out: MemorySink,
    err: MemorySink,
}

// The words of a line.
fn words_of(alloc: Global, line: &str) -> Result<Vec<String>, AllocError> {
    let mut words = Vec::new(alloc);
    for word in line.split_whitespace().filter(|word| *word != "%-") {
        words.push(String::from_str(alloc, word)?)?;
    }
    Ok(words)
}

// Makes the call.
fn called(alloc: Global, stage: &Stage, failing: &Failing, words: &str) -> Result<Given, Memory> {
    let words = words_of(alloc, words)?;
    let mut files = stage.files(alloc, failing.loads(alloc)?)?;
    let (mut out, mut err) = failing.outputs(alloc)?;
    let status = debug_main(alloc, &words, &mut files, &mut out, &mut err);
    Ok(Given { status, out, err })
}

/// Writes what a call gives, the status and both outputs, as blocks of lines.
pub(crate) fn put_call(
    alloc: Global,
    stage: &Stage,
    failing: &Failing,
    words: &str,
    out: &mut String,
) -> Result<(), Memory> {
    let given = called(alloc, stage, failing, words)?;
    let status = given.status;
    write!(out, "== status {status}\n== out\n")?;
    put_lines(out, given.out.bytes())?;
    out.push_str("== err\n")?;
    put_lines(out, given.err.bytes())?;
    Ok(())
}

// Writes what a call gives in one line.
fn put_given(given: &Given, out: &mut String) -> Result<(), Memory> {
    let status = given.status;
    write!(out, "{status} ")?;
    put_quoted(out, given.out.bytes())?;
    out.push(' ')?;
    put_quoted(out, given.err.bytes())?;
    Ok(())
}

/// `calls`: what a call of the question's words gives over the files of the case; what fails stands before them, with a colon behind.
pub(crate) fn call_question(
    alloc: Global,
    stage: &Stage,
    written: &str,
    out: &mut String,
) -> Result<(), Memory> {
    ask(written, out)?;
    let mut failing = Failing::new(alloc);
    let words = match written.split_once(": ") {
        Some((fails, words)) => {
            failing.add(fails)?;
            words
        }
        None => written,
    };
    put_given(&called(alloc, stage, &failing, words)?, out)
}

/// `texts WORDS`: what a call of these words gives where the file P1 has the question's text, beside the files of the case.
pub(crate) fn text_question(
    alloc: Global,
    stage: &Stage,
    words: &str,
    question: &Question<'_>,
    out: &mut String,
) -> Result<(), Memory> {
    question.ask(out)?;
    let mut staged = Stage::new(alloc);
    staged.add(alloc, "P1", Vec::from_slice(alloc, question.text())?)?;
    staged.add_all(alloc, stage)?;
    put_given(&called(alloc, &staged, &Failing::new(alloc), words)?, out)
}
