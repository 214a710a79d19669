// The text of a task.

ghost use Rattle.std.specs.Prelude.{◌≡◌};
ghost use Rattle.ada_tree.specs.NameList.{AreNames};
ghost use Rattle.ded_io.specs.Counts.{HasCause};
ghost use Rattle.ded_io.specs.Written.{Wrote};
ghost use Rattle.syn_event.specs.TaskText.{task_text, member_text};
ghost use Rattle.syn_event.specs.DeclaredTasks.{text_of};

use crate::TaskInfo;
use ada_tree::{NameId, Names};
use ded_io::decimals::{put_number, put_signed};
use ded_io::{Sink, SinkError};

/// The bytes of a name, which are none where the names have no such id.
pub fn name_of(names: &Names, id: NameId) -> &[u8]
    ensures text { result.now ≡ text_of names.now id }
    ensures named { AreNames names.now }
{
    match names.text(id) {
        Some(text) => text.as_bytes(),
        None => &[],
    }
}

/// Appends the text of the task of that number, without the end of its line: `task`, its number and its name, with the index of a member of
/// an array of tasks in parentheses. After an error a front of the text was appended. It takes no memory.
#[tactic(auto, using(ded_io::proofs::Writes::writes))]
pub fn show_task<K: Sink>(
    names: &Names,
    t: u32,
    info: &TaskInfo,
    out: &mut K,
) -> Result<(), SinkError>
    ensures bytes { Wrote result (K.told out.old) (K.told out.new) (task_text names.now t info.now) }
    ensures cause { HasCause (K.faults out.old) (K.faults out.new) result }
{
    out.put(b"task ")?;
    put_number(t as u64, out)?;
    out.put(b" ")?;
    out.put(name_of(names, info.name))?;
    put_member(info.member, out)
}

// The index of a member of an array of tasks.
#[tactic(auto, using(ded_io::proofs::Writes::writes))]
fn put_member<K: Sink>(member: Option<i32>, out: &mut K) -> Result<(), SinkError>
    ensures bytes { Wrote result (K.told out.old) (K.told out.new) (member_text member) }
    ensures cause { HasCause (K.faults out.old) (K.faults out.new) result }
{
    match member {
        Some(index) => {
            out.put(b"(")?;
            put_signed(index, out)?;
            out.put(b")")
        }
        None => Ok(()),
    }
}
