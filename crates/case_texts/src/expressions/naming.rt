//! The names of programs. The questions of one heading are steps, one behind the other.

use ada_tree::{Memory, NameId, Names};
use case_form::ask;
use std::alloc::Global;

/// `names`: `intern TEXT` gives an id, `text ID` a text, and `copy` goes on with a copy.
pub fn names(alloc: Global, steps: &str, out: &mut String) -> Result<(), Memory> {
    let mut names = Names::new(alloc)?;
    put_steps(alloc, &mut names, steps, out)
}

fn put_steps(
    alloc: Global,
    names: &mut Names,
    steps: &str,
    out: &mut String,
) -> Result<(), Memory> {
    for step in steps.lines() {
        ask(step, out)?;
        let (word, rest) = step.split_once(' ').unwrap_or((step, ""));
        match word {
            "intern" => {
                let id = names.intern(rest)?.0;
                write!(out, "{id}")?;
            }
            "text" => {
                let id = NameId(rest.parse().unwrap_or(0));
                out.push_str(names.text(id).unwrap_or("none"))?;
            }
            _ => {
                set(names, names.copy(alloc)?);
                out.push_str("ok")?;
            }
        }
        out.push('\n')?;
    }
    Ok(())
}

// Puts a value into a place, and drops what was there.
fn set<T: Drop>(place: &mut T, value: T) {
    *place = value;
}
