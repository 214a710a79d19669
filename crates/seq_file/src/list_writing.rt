// Writing a sequence file by tasks.

ghost use Rattle.std.specs.Prelude.{◌≡◌, ◌<◌, length, map, decimal};
ghost use Rattle.ded_io.specs.Counts.{HasCause};
ghost use Rattle.ded_io.specs.Written.{Wrote};
ghost use Rattle.seq_file.specs.Lists.{AreListsFit, ListReads, ListText, list_count, lists_text, list_text, list_header_line, task_line};

use super::task_lists::TaskLists;
use super::writing::{put_events, put_program};
use ada_tree::Names;
use ded_io::decimals::put_number;
use ded_io::{Sink, SinkError};
use syn_event::{Event, Numbers, name_of};

/// Appends a sequence file by tasks: the header of the program, and for each task its list, with a line for each event, in order.
/// There is one list for main and for each other task of the original. After an error a front of the file was appended. It takes no memory.
#[tactic(auto, using(ded_io::proofs::Writes::writes))]
pub fn write_lists<K: Sink>(
    lists: &TaskLists,
    numbers: &Numbers,
    names: &Names,
    out: &mut K,
) -> Result<(), SinkError>
    requires { length lists.now ≡ list_count numbers.now }
    ensures bytes { Wrote result (K.told out.old) (K.told out.new) (ListText names.now numbers.now lists.now) }
    ensures cause { HasCause (K.faults out.old) (K.faults out.new) result }
    ensures read_back { AreListsFit numbers.now lists.now → ListReads (ListText names.now numbers.now lists.now) numbers.now names.now lists.now }
{
    put_list_header(numbers, names, out)?;
    put_lists(&lists.lists, out)
}

// Appends the first line.
#[tactic(auto, using(ded_io::proofs::Writes::writes))]
fn put_list_header<K: Sink>(numbers: &Numbers, names: &Names, out: &mut K) -> Result<(), SinkError>
    ensures bytes { Wrote result (K.told out.old) (K.told out.new) (list_header_line names.now numbers.now) }
    ensures cause { HasCause (K.faults out.old) (K.faults out.new) result }
{
    out.put(b"ded-seq 2 ")?;
    put_program(numbers, names, out)
}

// Appends the lists, those of the tasks from 0.
fn put_lists<K: Sink>(lists: &[Vec<Event>], out: &mut K) -> Result<(), SinkError>
    ensures bytes { Wrote result (K.told out.old) (K.told out.new) (lists_text 0 (map (λ v. v.items) lists.now)) }
    ensures cause { HasCause (K.faults out.old) (K.faults out.new) result }
{
    let mut task: u64 = 0;
    for list in lists {
        match put_list(task, list, out) {
            Ok(()) => {}
            Err(error) => return Err(error),
        }
        task += 1;
    }
    Ok(())
}

// Appends the list of a task: its line with the number of its events, and a line for each.
#[tactic(auto, using(ded_io::proofs::Writes::writes))]
fn put_list<K: Sink>(task: u64, events: &[Event], out: &mut K) -> Result<(), SinkError>
    ensures bytes { Wrote result (K.told out.old) (K.told out.new) (list_text task events.now) }
    ensures cause { HasCause (K.faults out.old) (K.faults out.new) result }
{
    put_task_line(task, events.len() as u64, out)?;
    put_events(events, out)
}

// Appends the line of a task, which says how many event lines follow.
#[tactic(auto, using(ded_io::proofs::Writes::writes))]
fn put_task_line<K: Sink>(task: u64, count: u64, out: &mut K) -> Result<(), SinkError>
    ensures bytes { Wrote result (K.told out.old) (K.told out.new) (task_line task (decimal count)) }
    ensures cause { HasCause (K.faults out.old) (K.faults out.new) result }
{
    out.put(b"task ")?;
    put_number(task, out)?;
    out.put(b" ")?;
    put_number(count, out)?;
    out.put(b"\n")
}
