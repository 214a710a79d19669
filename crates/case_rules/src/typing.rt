//! The first twelve static rules, the types of programs, and the values of static expressions.

use ada_parser::ReadError;
use ada_tree::{Constant, Kind, Literals, Mark, Memory, Names, Program, Span, Types};
use ada_types::{TypeError, static_value, types_of};
use case_form::programs::{assigned, place_of, program_of, put_name};
use case_form::{Question, Text, put_comma};
use std::alloc::Global;

/// How the place of a refusal is told.
#[derive(Clone, Copy)]
pub enum Told {
    /// By marks in the question.
    Marked,
    /// By its line and column in the whole text.
    Counted,
}

// The name of the rule that refuses, and the place.
fn refusal_of(error: TypeError) -> Result<(&'static str, Span), Memory> {
    match error {
        TypeError::Unknown { span } => Ok(("Unknown", span)),
        TypeError::Duplicate { span } => Ok(("Duplicate", span)),
        TypeError::Mismatch { span } => Ok(("Mismatch", span)),
        TypeError::NotStatic { span } => Ok(("NotStatic", span)),
        TypeError::RangeBad { span } => Ok(("RangeBad", span)),
        TypeError::NotVariable { span } => Ok(("NotVariable", span)),
        TypeError::ReadOut { span } => Ok(("ReadOut", span)),
        TypeError::ArgCount { span } => Ok(("ArgCount", span)),
        TypeError::ChoiceBad { span } => Ok(("ChoiceBad", span)),
        TypeError::ArrayUse { span } => Ok(("ArrayUse", span)),
        TypeError::TextUse { span } => Ok(("TextUse", span)),
        TypeError::NotException { span } => Ok(("NotException", span)),
        TypeError::Memory => Err(Memory),
    }
}

// Answers with the rule that refuses, at its place.
fn answer_refusal(
    question: &Question<'_>,
    error: TypeError,
    told: Told,
    out: &mut String,
) -> Result<(), Memory> {
    let (rule, span) = refusal_of(error)?;
    match told {
        Told::Marked => question.answer_around(out, rule, (span.start, span.end))?,
        Told::Counted => {
            question.answer(out, rule)?;
            let place = place_of(question.text(), span.start);
            let (line, col) = (place.line, place.col);
            write!(out, " {line}:{col}")?;
        }
    }
    Ok(())
}

/// `types`: the first refusal of the question's program, or that it has types.
pub fn types(
    alloc: Global,
    question: &Question<'_>,
    told: Told,
    out: &mut String,
) -> Result<(), Memory> {
    match program_of(alloc, question.text()) {
        Ok(program) => match types_of(alloc, &program) {
            Ok(_) => Ok(question.answer(out, "ok")?),
            Err(error) => answer_refusal(question, error, told, out),
        },
        Err(error) => answer_unread(question, error, out),
    }
}

// Answers that the question's text is no program.
fn answer_unread(
    question: &Question<'_>,
    error: ReadError,
    out: &mut String,
) -> Result<(), Memory> {
    match error {
        ReadError::Memory => Err(Memory),
        _ => Ok(question.answer(out, "no program")?),
    }
}

/// `type_table`: the kinds, marks and constants of the question's program, behind so many kinds and marks.
pub fn type_table(
    alloc: Global,
    question: &Question<'_>,
    kinds: usize,
    marks: usize,
    out: &mut String,
) -> Result<(), Memory> {
    match program_of(alloc, question.text()) {
        Ok(program) => match types_of(alloc, &program) {
            Ok(types) => answer_types(question, &program.names, &types, kinds, marks, out),
            Err(error) => answer_refusal(question, error, Told::Marked, out),
        },
        Err(error) => answer_unread(question, error, out),
    }
}

fn answer_types(
    question: &Question<'_>,
    names: &Names,
    types: &Types,
    kinds: usize,
    marks: usize,
    out: &mut String,
) -> Result<(), Memory> {
    question.ask(out)?;
    let mut is_first = true;
    for kind in types.kinds.iter().skip(kinds) {
        put_comma(out, is_first)?;
        put_kind(names, kind, out)?;
        is_first = false;
    }
    for mark in types.marks.iter().skip(marks) {
        put_comma(out, is_first)?;
        put_mark(names, *mark, out)?;
        is_first = false;
    }
    for constant in &types.constants {
        put_comma(out, is_first)?;
        put_constant(names, *constant, out)?;
        is_first = false;
    }
    if is_first {
        out.push_str("nothing")?;
    }
    Ok(())
}

fn put_kind(names: &Names, kind: &Kind, out: &mut String) -> Result<(), Memory> {
    match kind {
        Kind::Integer => out.push_str("integer")?,
        Kind::Truth => out.push_str("truth")?,
        Kind::Enumeration { literals } => put_literals(names, literals, out)?,
        Kind::Array {
            index,
            first,
            last,
            part,
        } => write!(out, "array over {index} from {first} to {last} of {part}")?,
    }
    Ok(())
}

fn put_literals(names: &Names, literals: &Literals, out: &mut String) -> Result<(), Memory> {
    out.push_str("enumeration")?;
    for id in literals.as_slice() {
        out.push(' ')?;
        put_name(names, *id, out)?;
    }
    Ok(())
}

fn put_mark(names: &Names, mark: Mark, out: &mut String) -> Result<(), Memory> {
    match mark.name {
        Some(name) => put_name(names, name, out)?,
        None => out.push('-')?,
    }
    let (kind, first, last) = (mark.kind, mark.first, mark.last);
    write!(out, " of {kind} from {first} to {last}")?;
    Ok(())
}

fn put_constant(names: &Names, constant: Constant, out: &mut String) -> Result<(), Memory> {
    put_name(names, constant.name, out)?;
    let (mark, value) = (constant.mark, constant.value);
    write!(out, " of {mark} is {value}")?;
    Ok(())
}

/// `static`: the value of the question, an expression, by the types of the frame with `null;` in its place. The question is read as what is
/// assigned there to X.
pub fn static_expression(
    alloc: Global,
    texts: &[Text],
    frame: Option<&Text>,
    written: &str,
    out: &mut String,
) -> Result<(), Memory> {
    let declared = Question::new(alloc, texts, frame, ("", ""), "null;")?;
    let question = Question::new(alloc, texts, frame, ("X := ", ";"), written)?;
    match program_of(alloc, declared.text()) {
        Ok(program) => match types_of(alloc, &program) {
            Ok(types) => value_in(alloc, &question, &types, out),
            Err(error) => answer_refusal(&declared, error, Told::Marked, out),
        },
        Err(error) => answer_unread(&question, error, out),
    }
}

// The value of what the question's program assigns.
fn value_in(
    alloc: Global,
    question: &Question<'_>,
    types: &Types,
    out: &mut String,
) -> Result<(), Memory> {
    match program_of(alloc, question.text()) {
        Ok(program) => value_of_last(question, &program, types, out),
        Err(error) => answer_unread(question, error, out),
    }
}

fn value_of_last(
    question: &Question<'_>,
    program: &Program,
    types: &Types,
    out: &mut String,
) -> Result<(), Memory> {
    match assigned(program) {
        Some(expr) => match static_value(expr, types) {
            Ok(value) => answer_value(question, value, out),
            Err(error) => answer_refusal(question, error, Told::Marked, out),
        },
        None => Ok(question.answer(out, "no expression")?),
    }
}

fn answer_value(question: &Question<'_>, value: i64, out: &mut String) -> Result<(), Memory> {
    question.ask(out)?;
    write!(out, "{value}")?;
    Ok(())
}
