//! Programs that are the same, and copies of programs.

use crate::programs::printed;
use crate::sameness::outlining::{put_outline, put_same};
use ada_tree::{Body, Memory, Names, Program, Span, Stmt, StmtKind, Word};
use ada_tree_copy::TreeCopy;
use ada_tree_same::TreeSame;
use case_form::programs::{answer_refused, program_of};
use case_form::{Question, Text, ask};
use std::alloc::{AllocError, Global};

/// `same` and `same_behind`: whether the programs of the two texts before and behind `//` are the same, the second one as it is, or
/// without its first declaration.
pub fn same(
    alloc: Global,
    texts: &[Text],
    frame: Option<&Text>,
    is_behind: bool,
    written: &str,
    out: &mut String,
) -> Result<(), Memory> {
    let (left, right) = written.split_once(" // ").unwrap_or((written, ""));
    let one = Question::new(alloc, texts, frame, ("", ""), left)?;
    let other = Question::new(alloc, texts, frame, ("", ""), right)?;
    ask(written, out)?;
    match program_of(alloc, one.text()) {
        Ok(program) => put_compared(alloc, &program, is_behind, other.text(), out),
        Err(_) => Ok(out.push_str("no program")?),
    }
}

fn put_compared(
    alloc: Global,
    program: &Program,
    is_behind: bool,
    text: &[u8],
    out: &mut String,
) -> Result<(), Memory> {
    match program_of(alloc, text) {
        Ok(mut other) => {
            if is_behind {
                drop_first(&mut other.decls);
            }
            let answer = comparison(program.same(&other), other.same(program));
            Ok(out.push_str(answer)?)
        }
        Err(_) => Ok(out.push_str("no program")?),
    }
}

// Drops the first of a list, if there is one.
fn drop_first<T: Drop>(list: &mut Vec<T>) {
    if !list.is_empty() {
        let _first = list.remove(0);
    }
}

// What is said of two programs by whether the first is the same as the second, and the second as the first.
fn comparison(there: bool, back: bool) -> &'static str {
    match (there, back) {
        (true, true) => "same",
        (false, false) => "another",
        _ => "same in one direction",
    }
}

/// `copy`: the id and the name of a copy of the question's program, how many statements it has, and whether it is the same.
pub fn copy(alloc: Global, question: &Question<'_>, out: &mut String) -> Result<(), Memory> {
    match program_of(alloc, question.text()) {
        Ok(program) => match program.copy(alloc) {
            Ok(copy) => answer_copy(question, &program, &copy, out),
            Err(_) => Err(Memory),
        },
        Err(error) => answer_refused(question, error, out),
    }
}

fn answer_copy(
    question: &Question<'_>,
    program: &Program,
    copy: &Program,
    out: &mut String,
) -> Result<(), Memory> {
    question.ask(out)?;
    let id = copy.name.name.0;
    write!(out, "{id} ")?;
    put_outline(copy, out)?;
    put_same(program.same(copy), out)?;
    if copy.name != program.name {
        out.push_str(", moved")?;
    }
    Ok(())
}

/// `built`: a program of one null statement is built with the question's first name behind the others: the id of its name, and whether it is
/// the same as the program that is read of its printed text.
pub fn built(alloc: Global, question: &Question<'_>, out: &mut String) -> Result<(), Memory> {
    let mut words = question.written().split_whitespace();
    let name = words.next().unwrap_or("Q");
    let mut names = Names::new(alloc)?;
    for word in words {
        names.intern(word)?;
    }
    question.ask(out)?;
    match null_program(alloc, names, name) {
        Ok(program) => put_built(alloc, &program, out),
        Err(_) => Err(Memory),
    }
}

fn put_built(alloc: Global, program: &Program, out: &mut String) -> Result<(), Memory> {
    let sink = printed(alloc, program)?;
    match program_of(alloc, sink.bytes()) {
        Ok(again) => put_built_again(program, &again, out),
        Err(_) => Ok(out.push_str("not read")?),
    }
}

fn put_built_again(program: &Program, again: &Program, out: &mut String) -> Result<(), Memory> {
    let (id, other) = (program.name.name.0, again.name.name.0);
    write!(out, "{id} read as {other}")?;
    put_same(program.same(again), out)?;
    put_same(again.same(program), out)
}

// A list of one thing.
fn list_of<T: Drop>(alloc: Global, only: T) -> Result<Vec<T>, AllocError> {
    let mut list = Vec::new(alloc);
    list.push(only)?;
    Ok(list)
}

// A program of that name with one null statement, nowhere in a text.
fn null_program(alloc: Global, mut names: Names, name: &str) -> Result<Program, Memory> {
    let span = Span { start: 0, end: 0 };
    let name = Word {
        name: names.intern(name)?,
        span,
    };
    let null = Stmt {
        kind: StmtKind::Null,
        span,
    };
    let stmts = list_of(alloc, null)?;
    Ok(Program {
        names,
        text_io: false,
        name,
        decls: Vec::new(alloc),
        body: Body {
            stmts,
            handlers: Vec::new(alloc),
        },
    })
}
