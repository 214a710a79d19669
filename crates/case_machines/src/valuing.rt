//! Values of expressions where variables have values.

use ada_tree::{Kind, Memory, Names, Program, Types};
use ada_value::{Binding, Raised, Scope, Value, Vars, eval, value_at};
use case_form::programs::{assigned, program_of, put_name, types_in};
use case_form::{Question, Text};
use std::alloc::Global;

/// `value VARIABLES`: the value of the question, an expression, or the exception that it raises, by the types of the frame with `null;` in
/// its place and the variables of the heading. The question is read as what is assigned there to X.
pub fn value(
    alloc: Global,
    texts: &[Text],
    frame: Option<&Text>,
    variables: &str,
    written: &str,
    out: &mut String,
) -> Result<(), Memory> {
    let declared = Question::new(alloc, texts, frame, ("", ""), "null;")?;
    let question = Question::new(alloc, texts, frame, ("X := ", ";"), written)?;
    question.ask(out)?;
    match types_in(alloc, declared.text())? {
        Some(types) => put_value_by(alloc, &question, variables, &types, out),
        None => Ok(out.push_str("no types")?),
    }
}

// The value of what the question's program assigns, by these types.
fn put_value_by(
    alloc: Global,
    question: &Question<'_>,
    variables: &str,
    types: &Types,
    out: &mut String,
) -> Result<(), Memory> {
    match program_of(alloc, question.text()) {
        Ok(mut program) => match vars_of(alloc, variables, &mut program.names, types) {
            Ok(vars) => put_valued(&program, &vars, types, out),
            Err(_) => Err(Memory),
        },
        Err(_) => Ok(out.push_str("no program")?),
    }
}

fn put_valued(
    program: &Program,
    vars: &Vars,
    types: &Types,
    out: &mut String,
) -> Result<(), Memory> {
    match assigned(program) {
        Some(expr) => match eval(expr, vars, types) {
            Ok(value) => put_value(&program.names, types, value, out),
            Err(raised) => put_raised(&program.names, raised, out),
        },
        None => Ok(out.push_str("no expression")?),
    }
}

// The variables of a heading, `NAME:MARK=POSITION` each, those of an inner scope behind `|`.
fn vars_of(
    alloc: Global,
    variables: &str,
    names: &mut Names,
    types: &Types,
) -> Result<Vars, Memory> {
    let mut scopes = Vec::new(alloc);
    for scope in variables.split('|') {
        let bindings = bindings_of(alloc, scope, names, types)?;
        scopes.push(Scope { bindings })?;
    }
    Ok(Vars { scopes })
}

fn bindings_of(
    alloc: Global,
    variables: &str,
    names: &mut Names,
    types: &Types,
) -> Result<Vec<Binding>, Memory> {
    let mut bindings = Vec::new(alloc);
    for variable in variables.split_whitespace() {
        bindings.push(binding_of(alloc, variable, names, types)?)?;
    }
    Ok(bindings)
}

// A variable with its mark and its values, which are given by their positions with commas between.
fn binding_of(
    alloc: Global,
    variable: &str,
    names: &mut Names,
    types: &Types,
) -> Result<Binding, Memory> {
    let (name, rest) = variable.split_once(':').unwrap_or((variable, ""));
    let (mark, positions) = rest.split_once('=').unwrap_or((rest, ""));
    let name = names.intern(name)?;
    let mark_name = names.intern(mark)?;
    let mark = types
        .marks
        .iter()
        .position(|mark| mark.name == Some(mark_name))
        .unwrap_or(0);
    let kind = kind_of_values(types, mark);
    let mut values = Vec::new(alloc);
    for position in positions.split(',') {
        values.push(value_at(types, kind, position.parse().unwrap_or(0)))?;
    }
    Ok(Binding {
        name,
        mark: u32::try_from(mark).unwrap_or(0),
        values,
    })
}

// The kind of the values of an object of the mark at a place: of an array that of its components.
fn kind_of_values(types: &Types, mark: usize) -> u32 {
    let kind = kind_at(types, mark);
    match types.kinds.get(kind as usize) {
        Some(Kind::Array { part, .. }) => kind_at(types, *part as usize),
        _ => kind,
    }
}

fn kind_at(types: &Types, mark: usize) -> u32 {
    match types.marks.get(mark) {
        Some(mark) => mark.kind,
        None => 0,
    }
}

fn put_value(names: &Names, types: &Types, value: Value, out: &mut String) -> Result<(), Memory> {
    match value {
        Value::Number(number) => write!(out, "{number}")?,
        Value::Truth(holds) => out.push_str(if holds { "TRUE" } else { "FALSE" })?,
        Value::Place { kind, pos } => put_literal(names, types, kind, pos, out)?,
    }
    Ok(())
}

// The literal of an enumeration at a position.
fn put_literal(
    names: &Names,
    types: &Types,
    kind: u32,
    position: u32,
    out: &mut String,
) -> Result<(), Memory> {
    let literal = match types.kinds.get(kind as usize) {
        Some(Kind::Enumeration { literals }) => literals.as_slice().get(position as usize),
        _ => None,
    };
    match literal {
        Some(name) => put_name(names, *name, out),
        None => Ok(out.push_str("no literal")?),
    }
}

fn put_raised(names: &Names, raised: Raised, out: &mut String) -> Result<(), Memory> {
    let word = match raised {
        Raised::Constraint => "CONSTRAINT_ERROR",
        Raised::Numeric => "NUMERIC_ERROR",
        Raised::Program => "PROGRAM_ERROR",
        Raised::Tasking => "TASKING_ERROR",
        Raised::Storage => "STORAGE_ERROR",
        Raised::End => "END_ERROR",
        Raised::Other(name) => return put_name(names, name, out),
    };
    Ok(out.push_str(word)?)
}
