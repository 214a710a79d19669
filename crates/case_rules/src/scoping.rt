//! Names in scopes. The questions of one heading are steps, one behind the other.

use ada_tree::Memory;
use case_form::ask;
use scoped_names::ScopedNames;
use std::alloc::Global;

/// `scopes`: `declare NAME THING` declares, `meaning NAME`, `at PLACE` and `len` ask, and `leave COUNT` forgets.
pub fn scopes(alloc: Global, steps: &str, out: &mut String) -> Result<(), Memory> {
    let mut names = ScopedNames::new(alloc);
    put_steps(&mut names, steps, out)
}

fn put_steps(names: &mut ScopedNames<char>, steps: &str, out: &mut String) -> Result<(), Memory> {
    for step in steps.lines() {
        ask(step, out)?;
        let mut words = step.split_whitespace();
        let word = words.next().unwrap_or("");
        let number = words.next().unwrap_or("").parse::<u32>().unwrap_or(0);
        if word == "declare" {
            let thing = words.next().unwrap_or("").parse::<char>().unwrap_or('?');
            names.declare(number, thing)?;
            out.push_str("ok")?;
        } else if word == "leave" {
            names.leave(number as usize);
            out.push_str("ok")?;
        } else {
            put_asked(names, word, number, out)?;
        }
        out.push('\n')?;
    }
    Ok(())
}

fn put_asked(
    names: &ScopedNames<char>,
    word: &str,
    number: u32,
    out: &mut String,
) -> Result<(), Memory> {
    let found = if word == "meaning" {
        names.meaning(number).copied()
    } else if word == "at" && (number as usize) < names.len() {
        Some(*names.at(number as usize))
    } else {
        None
    };
    match found {
        Some(thing) => out.push(thing)?,
        None if word == "len" => {
            let len = names.len();
            write!(out, "{len}")?;
        }
        None => out.push_str("none")?,
    }
    Ok(())
}
