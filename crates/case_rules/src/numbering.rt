//! The numbers of tasks and entries, the texts of events, and what an event stands for.

use ada_check::{CheckError, check};
use ada_tree::{Memory, Names};
use case_form::Question;
use case_form::programs::{Known, answer_refused, program_of, put_name};
use ded_io::MemorySink;
use std::alloc::Global;
use syn_event::{EntryInfo, Event, Mode, Numbers, TaskInfo, back, show};

/// `numbers`: the tasks of the question's program from main on, and its entries with their owners, added ones behind `+`.
pub fn numbers(alloc: Global, question: &Question<'_>, out: &mut String) -> Result<(), Memory> {
    match program_of(alloc, question.text()) {
        Ok(program) => match check(alloc, &program, Mode::Any) {
            Ok(checked) => answer_numbers(question, &program.names, &checked.numbers, out),
            Err(CheckError::Memory) => Err(Memory),
            Err(_) => Ok(question.answer(out, "refused")?),
        },
        Err(error) => answer_refused(question, error, out),
    }
}

fn answer_numbers(
    question: &Question<'_>,
    names: &Names,
    numbers: &Numbers,
    out: &mut String,
) -> Result<(), Memory> {
    question.ask(out)?;
    out.push_str("tasks")?;
    for task in &numbers.tasks {
        put_task(names, *task, out)?;
    }
    out.push_str(", entries")?;
    for entry in &numbers.entries {
        put_entry(names, *entry, out)?;
    }
    Ok(())
}

// A blank, and a `+` where it is added.
fn put_added(added: bool, out: &mut String) -> Result<(), Memory> {
    Ok(out.push_str(if added { " +" } else { " " })?)
}

fn put_task(names: &Names, task: TaskInfo, out: &mut String) -> Result<(), Memory> {
    put_added(task.added, out)?;
    put_name(names, task.name, out)?;
    match task.member {
        Some(member) => write!(out, "({member})")?,
        None => {}
    }
    out.push(':')?;
    put_name(names, task.unit, out)
}

fn put_entry(names: &Names, entry: EntryInfo, out: &mut String) -> Result<(), Memory> {
    put_added(entry.added, out)?;
    let (owner, first, last) = (entry.owner, entry.first, entry.last);
    write!(out, "{owner}.")?;
    put_name(names, entry.name, out)?;
    if entry.family {
        write!(out, "({first}..{last})")?;
    }
    match entry.stands_for {
        Some(number) => write!(out, "={number}")?,
        None => {}
    }
    Ok(())
}

/// `number`: of `task NAME` the number of the first task of that name, of `entry OWNER NAME` that of its owner's entry.
pub fn number(
    alloc: Global,
    known: &mut Known,
    question: &Question<'_>,
    out: &mut String,
) -> Result<(), Memory> {
    let mut words = question.written().split_whitespace();
    let is_task = words.next().unwrap_or("") == "task";
    let owner = if is_task {
        0
    } else {
        words.next().unwrap_or("").parse().unwrap_or(0)
    };
    let name = known.program.names.intern(words.next().unwrap_or(""))?;
    let numbers = &known.checked.numbers;
    let found = if is_task {
        numbers.task_named(name)
    } else {
        numbers.entry_named(owner, name)
    };
    question.ask(out)?;
    match found {
        Some(number) => write!(out, "{number}")?,
        None => out.push_str("none")?,
    }
    Ok(())
}

/// The event that a text says, if it is one; its numbers need not be those of a program.
pub fn event_of(text: &str) -> Option<Event> {
    let mut words = text.split_whitespace();
    let letter = words.next().unwrap_or("");
    let first = words.next().unwrap_or("").parse::<u32>().unwrap_or(0);
    let second = words.next().unwrap_or("").parse::<u32>().unwrap_or(0);
    let i = words.next().unwrap_or("").parse::<i32>().unwrap_or(0);
    let (a, c, t) = (first, first, first);
    let (e, k, x) = (second, second, second);
    match letter {
        "R" => Some(Event::R { c, e, i }),
        "E" => Some(Event::E { a }),
        "S" => Some(Event::S { a }),
        "D" => Some(Event::D { a, k }),
        "C" => Some(Event::C { c, e, i }),
        "T" => Some(Event::T { c, e, i }),
        "F" => Some(Event::F { c, e, i }),
        "X" => Some(Event::X { a }),
        "B" => Some(Event::B { t, x }),
        "Z" => Some(Event::Z),
        _ => None,
    }
}

/// Writes the text of an event.
pub fn put_event(alloc: Global, event: Event, out: &mut String) -> Result<(), Memory> {
    let mut sink = MemorySink::new(alloc, Vec::new(alloc), 100)?;
    match show(&event, &mut sink) {
        Ok(()) => put_ascii(sink.bytes(), out),
        Err(_) => Err(Memory),
    }
}

fn put_ascii(bytes: &[u8], out: &mut String) -> Result<(), Memory> {
    for byte in bytes {
        out.push(char::from(*byte))?;
    }
    Ok(())
}

/// `events`: the text of the question's event, which is read with its numbers.
pub fn event(alloc: Global, question: &Question<'_>, out: &mut String) -> Result<(), Memory> {
    question.ask(out)?;
    match event_of(question.written()) {
        Some(event) => put_event(alloc, event, out),
        None => Ok(out.push_str("no event")?),
    }
}

/// `origins`: the event of the original that the question's event stands for.
pub fn origin(
    alloc: Global,
    known: &Known,
    question: &Question<'_>,
    out: &mut String,
) -> Result<(), Memory> {
    question.ask(out)?;
    match event_of(question.written()) {
        Some(event) => match back(&event, &known.checked.numbers) {
            Some(original) => put_event(alloc, original, out),
            None => Ok(out.push_str("none")?),
        },
        None => Ok(out.push_str("no event")?),
    }
}
