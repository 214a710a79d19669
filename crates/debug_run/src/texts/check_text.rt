// The text of a program's numbers.

ghost use Rattle.std.specs.Prelude.{◌≡◌, ◌<◌, ◌^◌, ◌+◌, length};
ghost use Rattle.ded_io.specs.Counts.{HasCause};
ghost use Rattle.ded_io.specs.Written.{Wrote};
ghost use Rattle.debug_run.specs.texts.CheckText.{check_header, check_text, check_words, entry_line, entry_lines, family_text, number_lines};

use crate::texts::run_text::{put_counts, put_tasks};
use ada_tree::Names;
use ded_io::decimals::{put_number, put_signed};
use ded_io::{Sink, SinkError};
use syn_event::{EntryInfo, Numbers, TaskInfo, name_of};

// Writes the numbers of a program's tasks and entries.
#[tactic(auto, using(ded_io::proofs::Writes::writes))]
pub fn put_numbers<K: Sink>(names: &Names, numbers: &Numbers, out: &mut K) -> Result<(), SinkError>
    ensures bytes { Wrote result (K.told out.old) (K.told out.new) (check_text names.now numbers.now) }
    ensures cause { HasCause (K.faults out.old) (K.faults out.new) result }
{
    put_header(names, numbers, out)?;
    put_lines(names, &numbers.tasks, &numbers.entries, out)
}

// Writes the first line: the program's name and how many tasks and entries it has.
#[tactic(auto, using(ded_io::proofs::Writes::writes))]
fn put_header<K: Sink>(names: &Names, numbers: &Numbers, out: &mut K) -> Result<(), SinkError>
    ensures bytes { Wrote result (K.told out.old) (K.told out.new) (check_header names.now numbers.now) }
    ensures cause { HasCause (K.faults out.old) (K.faults out.new) result }
{
    out.put(check_words())?;
    put_counts(names, numbers, out)
}

// The words that the text begins with.
#[tactic(auto, unfolding(crate::specs::texts::CheckText::check_words))]
fn check_words() -> &'static [u8]
    ensures { result.now ≡ check_words }
{
    b"ded-check 1 "
}

// Writes the lines of all tasks and of all entries.
#[tactic(auto, using(ded_io::proofs::Writes::writes))]
fn put_lines<K: Sink>(
    names: &Names,
    tasks: &[TaskInfo],
    entries: &[EntryInfo],
    out: &mut K,
) -> Result<(), SinkError>
    requires tasks { length tasks.now < 2 ^ 32 }
    requires entries { length entries.now < 2 ^ 32 }
    ensures bytes { Wrote result (K.told out.old) (K.told out.new) (number_lines names.now tasks.now entries.now) }
    ensures cause { HasCause (K.faults out.old) (K.faults out.new) result }
{
    put_tasks(names, tasks, out)?;
    put_entries(names, entries, out)
}

// Writes the lines of all entries, from 1.
fn put_entries<K: Sink>(names: &Names, entries: &[EntryInfo], out: &mut K) -> Result<(), SinkError>
    requires { length entries.now < 2 ^ 32 }
    ensures bytes { Wrote result (K.told out.old) (K.told out.new) (entry_lines names.now entries.now) }
    ensures cause { HasCause (K.faults out.old) (K.faults out.new) result }
{
    for (k, info) in entries.iter().enumerate() {
        match put_entry(names, k as u32, info, out) {
            Ok(()) => {}
            Err(e) => return Err(e),
        }
    }
    Ok(())
}

// Writes the line of the entry at a place of the list; that at place 0 has the number 1.
#[tactic(auto, using(ded_io::proofs::Writes::writes))]
fn put_entry<K: Sink>(
    names: &Names,
    place: u32,
    info: &EntryInfo,
    out: &mut K,
) -> Result<(), SinkError>
    ensures bytes { Wrote result (K.told out.old) (K.told out.new) (entry_line names.now (place + 1) info.now) }
    ensures cause { HasCause (K.faults out.old) (K.faults out.new) result }
{
    out.put(b"entry ")?;
    put_number(place as u64 + 1, out)?;
    out.put(b" ")?;
    put_number(info.owner as u64, out)?;
    out.put(b" ")?;
    out.put(name_of(names, info.name))?;
    put_family(info.family, info.first, info.last, out)?;
    out.put(b"\n")
}

// Writes the first and the last index of a family, behind blanks; of a plain entry nothing.
#[tactic(auto, using(ded_io::proofs::Writes::writes))]
fn put_family<K: Sink>(family: bool, first: i32, last: i32, out: &mut K) -> Result<(), SinkError>
    ensures bytes { Wrote result (K.told out.old) (K.told out.new) (family_text family first last) }
    ensures cause { HasCause (K.faults out.old) (K.faults out.new) result }
{
    if !family {
        return Ok(());
    }
    out.put(b" ")?;
    put_signed(first, out)?;
    out.put(b" ")?;
    put_signed(last, out)
}
