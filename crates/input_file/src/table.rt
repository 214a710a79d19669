// The inputs of all tasks, by the number of the task.

ghost use Rattle.std.specs.Prelude.{◌≡◌, ◌<◌, ◌≤◌, ◌+◌, ◌^◌, ◌++◌, [], ◌∷◌, List, length, map, replicate, nat_le, true, false, slice_set, IfOk, IfErr, Some, None, slice_index_or};
ghost use Rattle.syn_event.specs.Numbering.{Numbering};
ghost use Rattle.input_file.specs.declared.errors.InputError.TheVariants.{Memory};
ghost use Rattle.input_file.specs.InputFiles.{InputLine, AreListsOf, most_inputs, input_fault};
ghost use Rattle.input_file.specs.inner.Tables.{IsTableOf, plain_line, capped_line};

use super::errors::InputError;
use std::alloc::Global;

const MOST_INPUTS: usize = 1000000;

/// What a line says: the number of a task, and the integers that it reads.
#[derive(Drop)]
pub(crate) struct Line {
    pub(crate) task: u64,
    pub(crate) values: Vec<i32>,
}

/// What each task reads, whether it had a line, and how many integers all tasks have.
#[derive(Drop)]
pub(crate) struct Table {
    lists: Vec<Vec<i32>>,
    seen: Vec<bool>,
    count: usize,
}

/// The table of so many tasks, before any line.
pub(crate) fn empty_table(alloc: Global, tasks: usize) -> Result<Table, InputError>
    requires { tasks < 2 ^ 32 }
    ensures made { IfOk result (λ table. IsTableOf tasks [] table) }
    ensures memory { IfErr result (λ error. error ≡ Memory) }
{
    let lists = match empty_lists(alloc, tasks) {
        Ok(lists) => lists,
        Err(error) => return Err(error),
    };
    match unseen(alloc, tasks) {
        Ok(seen) => Ok(Table {
            lists,
            seen,
            count: 0,
        }),
        Err(error) => Err(error),
    }
}

fn empty_lists(alloc: Global, tasks: usize) -> Result<Vec<Vec<i32>>, InputError>
    ensures made { IfOk result (λ lists. AreListsOf tasks [] (map (λ v. v.items) lists.items)) }
    ensures memory { IfErr result (λ error. error ≡ Memory) }
{
    let mut lists = Vec::new(alloc);
    while lists.len() < tasks {
        add_empty(alloc, &mut lists)?;
    }
    Ok(lists)
}

fn add_empty(alloc: Global, lists: &mut Vec<Vec<i32>>) -> Result<(), InputError>
    ensures added { IfOk result (λ _. map (λ v. v.items) lists.new.items ≡ map (λ v. v.items) lists.old.items ++ [] ∷ []) }
    ensures memory { IfErr result (λ error. error ≡ Memory) }
{
    match lists.push(Vec::new(alloc)) {
        Ok(()) => Ok(()),
        Err(_) => Err(InputError::Memory),
    }
}

fn unseen(alloc: Global, tasks: usize) -> Result<Vec<bool>, InputError>
    ensures made { IfOk result (λ seen. seen.items ≡ replicate tasks false) }
    ensures memory { IfErr result (λ error. error ≡ Memory) }
{
    match Vec::from_elem(alloc, false, tasks) {
        Ok(seen) => Ok(seen),
        Err(_) => Err(InputError::Memory),
    }
}

/// The fault of a line behind those of the table, if it has one. The line has this number in the file.
pub(crate) fn line_fault(table: &Table, line: &Line, number: u32) -> Option<InputError>
    ensures is { (numbers : Numbering) (lines : List InputLine) (added : InputLine)
        → IsTableOf (length numbers.tasks) lines table.now → number ≡ length lines + 2 → plain_line line.now ≡ capped_line added
        → result ≡ input_fault numbers lines (Some added) }
    ensures task { result ≡ None → line.now.task < length table.now.seen.items }
    ensures few { result ≡ None → table.now.count + length line.now.values.items ≤ most_inputs }
{
    if has_line(&table.seen, line.task) {
        return Some(InputError::BadLine { line: number });
    }
    if line.task >= table.seen.len() as u64 {
        return Some(InputError::UnknownTask { line: number });
    }
    if fits(table.count, line.values.len()) {
        None
    } else {
        Some(InputError::TooMany {
            limit: MOST_INPUTS as u32,
        })
    }
}

fn has_line(seen: &[bool], task: u64) -> bool
    ensures { result ≡ slice_index_or seen.now task false }
{
    match seen.get(task as usize) {
        Some(seen) => *seen,
        None => false,
    }
}

// Whether so many integers and so many more are within the limit.
#[tactic(auto, using(crate::proofs::Counting::counting))]
fn fits(count: usize, more: usize) -> bool
    ensures { result ≡ nat_le (count + more) most_inputs }
{
    count <= MOST_INPUTS && more <= MOST_INPUTS - count
}

/// Lays a line into the table.
pub(crate) fn lay(table: &mut Table, line: Line)
    requires task { line.task < length table.old.seen.items }
    requires lists { length table.old.lists.items ≡ length table.old.seen.items }
    requires few { table.old.count + length line.values.items ≤ most_inputs }
    ensures { (numbers : Numbering) (lines : List InputLine) (added : InputLine)
        → IsTableOf (length numbers.tasks) lines table.old → plain_line line ≡ capped_line added → input_fault numbers lines (Some added) ≡ None
        → IsTableOf (length numbers.tasks) (lines ++ added ∷ []) table.new }
{
    let Line { task, values } = line;
    table.count += values.len();
    mark(&mut table.seen, task as usize);
    replace(&mut table.lists, task as usize, values);
}

fn mark(seen: &mut Vec<bool>, place: usize)
    requires { place < length seen.old.items }
    ensures { seen.new.items ≡ slice_set seen.old.items place true }
{
    seen[place] = true;
}

fn replace(lists: &mut Vec<Vec<i32>>, place: usize, values: Vec<i32>)
    requires { place < length lists.old.items }
    ensures { lists.new.items ≡ slice_set lists.old.items place values }
{
    lists[place] = values;
}

/// The inputs of all tasks.
pub(crate) fn lists_of(table: Table) -> Vec<Vec<i32>>
    ensures { result ≡ table.lists }
{
    let Table {
        lists,
        seen: _,
        count: _,
    } = table;
    lists
}
