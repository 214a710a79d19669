// The lines that the recorder writes, as statements.

ghost use Rattle.std.specs.Prelude.{◌≡◌, ◌∷◌, [], IfOk, codes, count_by, drop, string_bytes};
ghost use Rattle.ada_tree.specs.PlainStmt.{PWords, SNewLine, plain_part, plain_stmt, seen, stmt_then};
ghost use Rattle.ada_stmt_copy.specs.expressions.Parts.{OkWith};
ghost use Rattle.syn_event.specs.DeclaredTasks.{text_of};
ghost use Rattle.syn_event.specs.Numbering.{is_original_task, is_original_entry};
ghost use Rattle.collect_model.specs.Lines.{put_words, put_number, task_line, delay_line, call_line, header_text, header_put};

use ada_stmt_copy::building::{put_line_of, put_of};
use ada_stmt_copy::expressions::put;
use ada_tree::{Memory, NameId, Names, Part, Span, Stmt, StmtKind};
use collect_model::AddedNames;
use itoa::Buffer;
use replay_asking::making::before;
use std::alloc::Global;
use syn_event::{EntryInfo, Numbers, TaskInfo};
use tree_rewriting::making::{name_expr, one_stmt};

// ---- what is written

/// A list of one part of what is written.
pub fn one_part(alloc: Global, part: Result<Part, Memory>) -> Result<Vec<Part>, Memory>
    ensures { IfOk result (λ made. OkWith part (λ x. made.items ≡ x ∷ [])) }
{
    let mut parts = Vec::new(alloc);
    put(&mut parts, part)?;
    Ok(parts)
}

// A text as a part of what is written.
fn words_part(alloc: Global, text: &str, s: Span) -> Result<Part, Memory>
    ensures { IfOk result (λ made. plain_part made ≡ PWords text.now s) }
{
    let text = String::from_str(alloc, text)?;
    Ok(Part::Words { text, span: s })
}

/// `PUT("..");`
pub fn put_words(alloc: Global, text: &str, s: Span) -> Result<Stmt, Memory>
    ensures { IfOk result (λ made. plain_stmt made ≡ put_words s text.now) }
{
    put_of(one_part(alloc, words_part(alloc, text, s)), s)
}

// `PUT(v);`
fn put_number(alloc: Global, name: NameId, s: Span) -> Result<Stmt, Memory>
    ensures { IfOk result (λ made. plain_stmt made ≡ put_number s name) }
{
    put_of(one_part(alloc, Ok(Part::Value(name_expr(name, s)))), s)
}

/// `NEW_LINE;`
pub fn line_end(s: Span) -> Stmt
    ensures { plain_stmt result ≡ SNewLine s }
{
    Stmt {
        kind: StmtKind::NewLine,
        span: s,
    }
}

// ---- lines

// A blank and a number, in front of other statements.
fn number_before(
    alloc: Global,
    name: NameId,
    rest: Result<Vec<Stmt>, Memory>,
    s: Span,
) -> Result<Vec<Stmt>, Memory>
    ensures { IfOk result (λ made. OkWith rest (λ r. seen made.items ≡ stmt_then (put_words s (codes " ")) (stmt_then (put_number s name) (seen r.items)))) }
{
    let number = before(alloc, put_number(alloc, name, s), rest);
    before(alloc, put_words(alloc, " ", s), number)
}

/// The line of an event that names its task alone.
pub fn task_line(alloc: Global, n: &AddedNames, letter: &str, s: Span) -> Result<Vec<Stmt>, Memory>
    ensures { IfOk result (λ made. seen made.items ≡ task_line n.now s letter.now) }
{
    let end = one_stmt(alloc, Ok(line_end(s)));
    let subject = number_before(alloc, n.subject, end, s);
    before(alloc, put_words(alloc, letter, s), subject)
}

/// The line of an event that names its task and a delay alternative.
pub fn delay_line(alloc: Global, n: &AddedNames, letter: &str, s: Span) -> Result<Vec<Stmt>, Memory>
    ensures { IfOk result (λ made. seen made.items ≡ delay_line n.now s letter.now) }
{
    let end = one_stmt(alloc, Ok(line_end(s)));
    let argument = number_before(alloc, n.argument, end, s);
    let subject = number_before(alloc, n.subject, argument, s);
    before(alloc, put_words(alloc, letter, s), subject)
}

/// The line of an event that names a caller, an entry and a member of it.
pub fn call_line(alloc: Global, n: &AddedNames, letter: &str, s: Span) -> Result<Vec<Stmt>, Memory>
    ensures { IfOk result (λ made. seen made.items ≡ call_line n.now s letter.now) }
{
    let end = one_stmt(alloc, Ok(line_end(s)));
    let index = number_before(alloc, n.index, end, s);
    let argument = number_before(alloc, n.argument, index, s);
    let subject = number_before(alloc, n.subject, argument, s);
    before(alloc, put_words(alloc, letter, s), subject)
}

// ---- the header

// The text of a name.
fn text_of(names: &Names, id: NameId) -> &str
    ensures { result.now ≡ text_of names.now id }
{
    match names.text(id) {
        Some(text) => text,
        None => "",
    }
}

// How many of the tasks beside main are the original's.
fn original_tasks(tasks: &[TaskInfo]) -> usize
    ensures { result ≡ count_by is_original_task (drop 1 tasks.now) }
{
    match tasks {
        [] => 0,
        [_, rest @ ..] => rest.iter().filter(|info| !info.added).count(),
    }
}

// How many of the entries are the original's.
fn original_entries(entries: &[EntryInfo]) -> usize
    ensures { result ≡ count_by is_original_entry entries.now }
{
    entries.iter().filter(|info| !info.added).count()
}

/// The header of the sequence file: the format, the name of the program, and how many tasks beside main and entries the original has.
pub fn header_text(alloc: Global, names: &Names, numbers: &Numbers) -> Result<String, Memory>
    ensures { IfOk result (λ text. string_bytes text ≡ header_text names.now numbers.now) }
{
    let mut buffer = Buffer::new();
    let mut text = String::from_str(alloc, "ded-seq 1 ")?;
    text.push_str(text_of(names, numbers.main))?;
    text.push_str(" ")?;
    text.push_str(buffer.format(original_tasks(&numbers.tasks)))?;
    text.push_str(" ")?;
    text.push_str(buffer.format(original_entries(&numbers.entries)))?;
    Ok(text)
}

/// `PUT_LINE("..");`
pub fn header_put(alloc: Global, header: &str, s: Span) -> Result<Stmt, Memory>
    ensures { IfOk result (λ made. plain_stmt made ≡ header_put s header.now) }
{
    put_line_of(one_part(alloc, words_part(alloc, header, s)), s)
}
