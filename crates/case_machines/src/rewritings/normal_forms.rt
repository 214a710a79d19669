//! Normal forms: the whole text, or the body of one unit in a line.

use crate::rewritings::normal_forms_kept::kept;
use ada_check::{CheckError, Checked, check};
use ada_printer::{print, text_len};
use ada_tree::{Memory, Program};
use case_form::programs::{answer_refused, program_of};
use case_form::{Question, put_escaped};
use ded_io::MemorySink;
use normal_form::normal;
use std::alloc::{AllocError, Global};
use syn_event::Mode;

/// `normal UNIT`: the normal form of the question's program, which is checked as an original; why it is refused, where it is.
pub fn normal_question(
    alloc: Global,
    question: &Question<'_>,
    unit: &str,
    out: &mut String,
) -> Result<(), Memory> {
    match program_of(alloc, question.text()) {
        Ok(program) => answer_checked(alloc, question, &program, unit, out),
        Err(error) => answer_refused(question, error, out),
    }
}

// Answers with the normal form of a program, or with the rule that refuses it.
fn answer_checked(
    alloc: Global,
    question: &Question<'_>,
    program: &Program,
    unit: &str,
    out: &mut String,
) -> Result<(), Memory> {
    match check(alloc, program, Mode::Original) {
        Ok(checked) => answer_normal(alloc, question, program, &checked, unit, out),
        Err(CheckError::Memory) => Err(Memory),
        Err(error) => {
            question.ask(out)?;
            Ok(write!(out, "refused: {error}")?)
        }
    }
}

// Answers with the normal form of a program that is legal.
fn answer_normal(
    alloc: Global,
    question: &Question<'_>,
    program: &Program,
    checked: &Checked,
    unit: &str,
    out: &mut String,
) -> Result<(), Memory> {
    match normal(alloc, program, &checked.types, &checked.numbers) {
        Ok(normal) => {
            let sink = text_of(alloc, &normal)?;
            let said = kept(alloc, &normal, &checked.numbers, sink.bytes())?;
            question.ask(out)?;
            write!(out, "{said}: ")?;
            Ok(put_unit(alloc, sink.bytes(), unit, out)?)
        }
        Err(error) => Err(error),
    }
}

// What is printed of a program, however long.
fn text_of(alloc: Global, program: &Program) -> Result<MemorySink, Memory> {
    let mut sink = MemorySink::new(alloc, Vec::new(alloc), text_len(program))?;
    match print(program, &mut sink) {
        Ok(()) => Ok(sink),
        Err(_) => Err(Memory),
    }
}

// The whole text, or the body of a unit in a line.
fn put_unit(alloc: Global, bytes: &[u8], unit: &str, out: &mut String) -> Result<(), AllocError> {
    if unit.is_empty() {
        return put_escaped(out, bytes);
    }
    let mut text = String::new(alloc);
    for byte in bytes {
        text.push(char::from(*byte))?;
    }
    let head = format!(in alloc; "\n   task body {unit} is\n")?;
    let end = format!(in alloc; "\n   end {unit};\n")?;
    put_line(between(text.as_str(), head.as_str(), end.as_str()), out)
}

// What stands between two parts of a text, or the whole where they do not stand in it.
fn between<'t>(text: &'t str, head: &str, end: &str) -> &'t str {
    match text.split_once(head) {
        Some((_, rest)) => match rest.split_once(end) {
            Some((part, _)) => part,
            None => rest,
        },
        None => text,
    }
}

// Lines in one line, without their indentation and with a blank between each two.
fn put_line(lines: &str, out: &mut String) -> Result<(), AllocError> {
    let mut is_first = true;
    for line in lines.lines() {
        if !is_first {
            out.push(' ')?;
        }
        put_escaped(out, line.trim_start().as_bytes())?;
        is_first = false;
    }
    Ok(())
}
