//! The trees of expressions and of what is built of them, with operators before their operands, brackets around indices
//! and braces for the parentheses of the text.

use ada_tree::{Bounds, Call, CaseChoice, Drange, Expr, ExprKind, Memory, Names, Target, Word};
use case_form::programs::put_name;

// The mark and the word of an attribute.
fn put_attribute(mark: Word, word: Word, names: &Names, out: &mut String) -> Result<(), Memory> {
    put_name(names, mark.name, out)?;
    out.push('\'')?;
    put_name(names, word.name, out)
}

// The tree of an expression, with what stands before it and behind it.
fn put_around(
    before: &str,
    expr: &Expr,
    behind: &str,
    names: &Names,
    out: &mut String,
) -> Result<(), Memory> {
    out.push_str(before)?;
    match &expr.kind {
        ExprKind::Integer(value) => write!(out, "{value}")?,
        ExprKind::Name(name) => put_name(names, *name, out)?,
        ExprKind::Index { name, arg } => {
            put_name(names, name.name, out)?;
            put_around("[", arg, "]", names, out)?;
        }
        ExprKind::Attribute { mark, word, arg } => {
            put_attribute(*mark, *word, names, out)?;
            if let Some(arg) = arg {
                put_around("[", arg, "]", names, out)?;
            }
        }
        ExprKind::Paren(part) => put_around("{", part, "}", names, out)?,
        ExprKind::Unary { op, part } => {
            write!(out, "({op:?} ")?;
            put_around("", part, ")", names, out)?;
        }
        ExprKind::Binary { op, left, right } => {
            write!(out, "({op:?} ")?;
            put_around("", left, " ", names, out)?;
            put_around("", right, ")", names, out)?;
        }
    }
    out.push_str(behind)?;
    Ok(())
}

/// The tree of an expression.
pub fn put_expr(expr: &Expr, names: &Names, out: &mut String) -> Result<(), Memory> {
    put_around("", expr, "", names, out)
}

/// Bounds with `..` between.
pub fn put_bounds(bounds: &Bounds, names: &Names, out: &mut String) -> Result<(), Memory> {
    put_expr(&bounds.first, names, out)?;
    put_around(" .. ", &bounds.last, "", names, out)
}

/// A range.
pub fn put_range(range: &Drange, names: &Names, out: &mut String) -> Result<(), Memory> {
    match range {
        Drange::Given(bounds) => put_bounds(bounds, names, out),
        Drange::Marked(mark) => {
            put_name(names, mark.mark.name, out)?;
            match &mark.bounds {
                Some(bounds) => {
                    out.push_str(" range ")?;
                    put_bounds(bounds, names, out)
                }
                None => Ok(()),
            }
        }
    }
}

// A name, and its index where it has one.
fn put_indexed(
    name: Word,
    index: &Option<Expr>,
    names: &Names,
    out: &mut String,
) -> Result<(), Memory> {
    put_name(names, name.name, out)?;
    match index {
        Some(index) => put_around("[", index, "]", names, out),
        None => Ok(()),
    }
}

/// A variable or a component.
pub fn put_target(target: &Target, names: &Names, out: &mut String) -> Result<(), Memory> {
    put_indexed(target.name, &target.index, names, out)
}

// Expressions in brackets, each with a semicolon behind it.
fn put_list(list: &[Expr], names: &Names, out: &mut String) -> Result<(), Memory> {
    out.push('[')?;
    for expr in list {
        put_around("", expr, ";", names, out)?;
    }
    out.push(']')?;
    Ok(())
}

/// An entry call.
pub fn put_call(call: &Call, names: &Names, out: &mut String) -> Result<(), Memory> {
    put_indexed(call.task.name, &call.task.index, names, out)?;
    out.push('.')?;
    put_name(names, call.entry.name, out)?;
    match &call.args {
        Some(args) => {
            put_list(&args.first, names, out)?;
            match &args.second {
                Some(second) => put_list(second, names, out),
                None => Ok(()),
            }
        }
        None => Ok(()),
    }
}

/// A choice of a case.
pub fn put_choice(choice: &CaseChoice, names: &Names, out: &mut String) -> Result<(), Memory> {
    put_expr(&choice.first, names, out)?;
    match &choice.last {
        Some(last) => put_around(" .. ", last, "", names, out),
        None => Ok(()),
    }
}
