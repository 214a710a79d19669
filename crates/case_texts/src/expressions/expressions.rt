//! Expressions and what is built of them, read from the tokens of a question up to a depth.

use crate::expressions::pieces::items_of;
use crate::expressions::trees::{put_call, put_choice, put_expr, put_range, put_target};
use ada_expr_parser::{
    Item, Items, ParseError, read_call, read_choice, read_drange, read_expr, read_target,
};
use ada_printer::{expr_len, print_expr};
use ada_tree::{Call, CaseChoice, Drange, Expr, Memory, Names, Target};
use case_form::programs::answer_fault;
use case_form::{Question, put_escaped};
use ded_io::MemorySink;
use std::alloc::Global;

/// What is read of the items.
#[derive(Clone, Copy)]
pub enum Wanted {
    /// An expression: its tree, its place, its height, and the place behind it.
    Expression,
    /// An expression: its place, its height, and how many items are left.
    Measure,
    /// An expression: the length of its text, and what is printed where the put of this number fails.
    Printed(u64),
    Range,
    Target,
    Call,
    Choice,
}

/// Answers with what is read of a question's items, or with the fault at its place.
pub fn expression(
    alloc: Global,
    question: &Question<'_>,
    wanted: Wanted,
    depth: u32,
    out: &mut String,
) -> Result<(), Memory> {
    match items_of(alloc, question.text()) {
        Ok(items) => answer_wanted(alloc, question, &items, wanted, depth, out),
        Err(fault) => answer_fault(question, fault, out),
    }
}

fn answer_wanted(
    alloc: Global,
    question: &Question<'_>,
    items: &Items,
    wanted: Wanted,
    depth: u32,
    out: &mut String,
) -> Result<(), Memory> {
    let mut answer = String::new(alloc);
    match put_wanted(alloc, items, wanted, depth, &mut answer) {
        Ok(()) => Ok(question.answer(out, answer.as_str())?),
        Err(ParseError::Syntax { at }) => Ok(question.answer_at(out, "Syntax", at)?),
        Err(ParseError::TooDeep { at }) => Ok(question.answer_at(out, "TooDeep", at)?),
        Err(ParseError::Memory) => Err(Memory),
    }
}

// Want of memory as a reader tells it.
fn written(answer: Result<(), Memory>) -> Result<(), ParseError> {
    match answer {
        Ok(()) => Ok(()),
        Err(Memory) => Err(ParseError::Memory),
    }
}

// What is shown of its own by its tree alone.
trait Shown {
    // Writes the tree.
    fn show(&self, names: &Names, out: &mut String) -> Result<(), Memory>;
}

impl Shown for Drange {
    fn show(&self, names: &Names, out: &mut String) -> Result<(), Memory> {
        put_range(self, names, out)
    }
}

impl Shown for Target {
    fn show(&self, names: &Names, out: &mut String) -> Result<(), Memory> {
        put_target(self, names, out)
    }
}

impl Shown for Call {
    fn show(&self, names: &Names, out: &mut String) -> Result<(), Memory> {
        put_call(self, names, out)
    }
}

impl Shown for CaseChoice {
    fn show(&self, names: &Names, out: &mut String) -> Result<(), Memory> {
        put_choice(self, names, out)
    }
}

// The tree that a reader gives, or why it gives none.
fn put_shown<T: Shown + Drop>(
    read: Result<(T, &[Item]), ParseError>,
    names: &Names,
    out: &mut String,
) -> Result<(), ParseError> {
    match read {
        Ok((tree, _)) => written(tree.show(names, out)),
        Err(error) => Err(error),
    }
}

// What a reader gives without the height that it tells.
fn without_height<T: Drop>(
    read: Result<(T, u32, &[Item]), ParseError>,
) -> Result<(T, &[Item]), ParseError> {
    match read {
        Ok((tree, _, rest)) => Ok((tree, rest)),
        Err(error) => Err(error),
    }
}

// What is read of the items, or why nothing is.
fn put_wanted(
    alloc: Global,
    items: &Items,
    wanted: Wanted,
    depth: u32,
    out: &mut String,
) -> Result<(), ParseError> {
    let (names, list) = (&items.names, &items.list);
    match wanted {
        Wanted::Expression | Wanted::Measure | Wanted::Printed(_) => {
            put_expression(alloc, items, wanted, depth, out)
        }
        Wanted::Range => put_shown(read_drange(alloc, depth, list), names, out),
        Wanted::Target => put_shown(without_height(read_target(alloc, depth, list)), names, out),
        Wanted::Call => put_shown(read_call(alloc, depth, list), names, out),
        Wanted::Choice => put_shown(read_choice(alloc, depth, list), names, out),
    }
}

// An expression that is read of the items.
fn put_expression(
    alloc: Global,
    items: &Items,
    wanted: Wanted,
    depth: u32,
    out: &mut String,
) -> Result<(), ParseError> {
    let names = &items.names;
    match read_expr(alloc, depth, &items.list) {
        Ok((expr, height, rest)) => {
            written(put_found(alloc, &expr, names, wanted, height, rest, out))
        }
        Err(error) => Err(error),
    }
}

// What is wanted of an expression, its height and the items behind it.
fn put_found(
    alloc: Global,
    expr: &Expr,
    names: &Names,
    wanted: Wanted,
    height: u32,
    rest: &[Item],
    out: &mut String,
) -> Result<(), Memory> {
    match wanted {
        Wanted::Printed(failing) => put_printed(alloc, expr, names, failing, out),
        Wanted::Measure => put_measure(expr, height, rest, out),
        _ => put_read(expr, names, height, rest, out),
    }
}

// The tree, its place, its height, and the place behind it.
fn put_read(
    expr: &Expr,
    names: &Names,
    height: u32,
    rest: &[Item],
    out: &mut String,
) -> Result<(), Memory> {
    put_expr(expr, names, out)?;
    let behind = match rest {
        [next, ..] => next.span.start,
        [] => 0,
    };
    let (start, end) = (expr.span.start, expr.span.end);
    write!(out, " {start}-{end} {height} to {behind}")?;
    Ok(())
}

// The place of the tree, its height, and how many items are left.
fn put_measure(expr: &Expr, height: u32, rest: &[Item], out: &mut String) -> Result<(), Memory> {
    let (start, end, left) = (expr.span.start, expr.span.end, rest.len());
    write!(out, "{start}-{end} {height} and {left} items")?;
    Ok(())
}

// The length of the text, and what is printed where a put fails.
fn put_printed(
    alloc: Global,
    expr: &Expr,
    names: &Names,
    failing: u64,
    out: &mut String,
) -> Result<(), Memory> {
    let len = expr_len(names, expr);
    write!(out, "{len} ")?;
    let mut sink = MemorySink::new(alloc, vec![in alloc; failing]?, 1000)?;
    match print_expr(names, expr, &mut sink) {
        Ok(()) => put_escaped(out, sink.bytes())?,
        Err(_) => out.push_str("failed")?,
    }
    Ok(())
}
