//! Outlines of programs, with whether what is printed is read as the same.

use crate::programs::printed;
use ada_tree::{Memory, Program};
use ada_tree_same::TreeSame;
use case_form::Question;
use case_form::programs::{answer_refused, program_of, put_name};
use std::alloc::Global;

/// `outline`: the name of the question's program, whether it has the context clauses, how many declarations and statements it has, and
/// whether what is printed of it is read as the same program and printed alike.
pub fn outline(alloc: Global, question: &Question<'_>, out: &mut String) -> Result<(), Memory> {
    match program_of(alloc, question.text()) {
        Ok(program) => answer_outline(alloc, question, &program, out),
        Err(error) => answer_refused(question, error, out),
    }
}

fn answer_outline(
    alloc: Global,
    question: &Question<'_>,
    program: &Program,
    out: &mut String,
) -> Result<(), Memory> {
    question.ask(out)?;
    put_outline(program, out)?;
    put_again(alloc, program, out)
}

/// The name of a program, whether it has the context clauses, and how many declarations and statements it has.
pub(crate) fn put_outline(program: &Program, out: &mut String) -> Result<(), Memory> {
    put_name(&program.names, program.name.name, out)?;
    if program.text_io {
        out.push_str(" with TEXT_IO")?;
    }
    let (decls, stmts) = (program.decls.len(), program.body.stmts.len());
    write!(out, ", {decls} declarations, {stmts} statements")?;
    Ok(())
}

// Whether what is printed of a program is read as the same one, and printed as it stands.
fn put_again(alloc: Global, program: &Program, out: &mut String) -> Result<(), Memory> {
    let sink = printed(alloc, program)?;
    match program_of(alloc, sink.bytes()) {
        Ok(again) => put_read_again(alloc, program, &again, sink.bytes(), out),
        Err(_) => Ok(out.push_str(", not read")?),
    }
}

fn put_read_again(
    alloc: Global,
    program: &Program,
    again: &Program,
    printed_once: &[u8],
    out: &mut String,
) -> Result<(), Memory> {
    let twice = printed(alloc, again)?;
    put_same(program.same(again), out)?;
    put_same(printed_once == twice.bytes(), out)
}

/// Whether two things are the same.
pub(crate) fn put_same(is_same: bool, out: &mut String) -> Result<(), Memory> {
    Ok(out.push_str(if is_same { ", the same" } else { ", another" })?)
}
