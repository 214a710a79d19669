// The replay text of a normal form.

ghost use Rattle.std.specs.Prelude.{◌≡◌, IfOk, OnOk, map};
ghost use Rattle.ada_tree.specs.PlainStmt.{plain_body};
ghost use Rattle.ada_tree.specs.PlainDecl.{plain_decl};
ghost use Rattle.ada_tree.specs.PlainProgram.{plain_program};
ghost use Rattle.replay_model.specs.Names.{replay_names};
ghost use Rattle.replay_model.specs.ReplayTree.{last_task, replay_of, script_of};
ghost use Rattle.replay_asking.specs.Looked.{voice_of};
ghost use Rattle.replay_statements.specs.rules.Replayed.{body_image};
ghost use Rattle.replay_declarations.specs.ids.Arranged.{decls_image};

use crate::tables::tables_of;
use ada_tree::{Decl, Memory, Names, Program};
use ada_tree_copy::TreeCopy;
use control_script::{Op, script};
use event_machine::Event;
use normal_lookups::Lookups;
use replay_asking::Speaker;
use replay_asking::names::add_names;
use replay_declarations::control::control_body;
use replay_declarations::units::{Head, replay_decls};
use replay_statements::rules::replay_body;
use std::alloc::Global;
use syn_event::Numbers;
use task_links::TaskNames;

// The number of the last task.
fn last_task(numbers: &Numbers) -> u32
    ensures { result ≡ last_task numbers.now }
{
    let count = numbers.tasks.len() as u32;
    count.saturating_sub(1)
}

// The names of a copy of a program become those of its replay text.
fn put_names(alloc: Global, q: &Program, names: &mut Names) -> Result<(), Memory>
    requires { names.old ≡ q.now.names }
    ensures { OnOk result (names.new ≡ replay_names (plain_program q.now)) }
{
    add_names(alloc, &q.names, &q.decls, names)
}

// The declarations and the body become those of the replay text, with this body of the controller.
fn rewrite(
    alloc: Global,
    x: Speaker,
    head: &Head,
    control: &mut Decl,
    text: &mut Program,
) -> Result<(), Memory>
    ensures names { OnOk result (text.new.names ≡ text.old.names) }
    ensures text_io { OnOk result (text.new.text_io ≡ text.old.text_io) }
    ensures name { OnOk result (text.new.name ≡ text.old.name) }
    ensures decls { OnOk result (map plain_decl text.new.decls.items ≡ decls_image (voice_of x.entry) head.now.names.now head.now.last head.now.place (plain_decl control.old) (map plain_decl text.old.decls.items)) }
    ensures body { OnOk result (plain_body text.new.body ≡ body_image (voice_of x.entry) head.now.place (plain_body text.old.body)) }
{
    replay_decls(alloc, &x, head, control, &mut text.decls)?;
    replay_body(alloc, x, &mut text.body, head.place)
}

// A copy of the normal form becomes its replay text.
fn put_text(alloc: Global, lookups: &Lookups, ops: &[Op], text: &mut Program) -> Result<(), Memory>
    requires { plain_program text.old ≡ lookups.now.program }
    ensures { OnOk result (plain_program text.new ≡ replay_of lookups.now ops.now) }
{
    let q = lookups.links().program();
    let numbers = lookups.links().numbers();
    put_names(alloc, q, &mut text.names)?;
    let tables = tables_of(alloc, lookups, &q.names, &text.names)?;
    let place = q.name.span;
    let mut control = control_body(alloc, &tables.added, ops, numbers, place, &mut text.names)?;
    let tasks = TaskNames::new(alloc, numbers)?;
    let speaker = Speaker {
        tables: &tables,
        numbers: &tasks,
        task: 0,
    };
    let head = Head {
        names: &q.names,
        last: last_task(numbers),
        place,
    };
    rewrite(alloc, speaker, &head, &mut control, text)
}

/// The replay text of a normal form with these operations, by what is looked up of the normal form. The only error is want of memory. It takes time linear in the normal form and the operations.
pub fn replay_text(alloc: Global, lookups: &Lookups, ops: &[Op]) -> Result<Program, Memory>
    ensures { IfOk result (λ text. plain_program text ≡ replay_of lookups.now ops.now) }
{
    let mut text = lookups.links().program().copy(alloc)?;
    put_text(alloc, lookups, ops, &mut text)?;
    Ok(text)
}

/// The replay text of a normal form and a sequence of events, whose tasks and entries have the numbers of the original. The only error is want of memory.
pub fn replay_sequence(
    alloc: Global,
    lookups: &Lookups,
    numbers: &Numbers,
    events: &[Event],
) -> Result<Program, Memory>
    ensures { IfOk result (λ text. plain_program text ≡ replay_of lookups.now (script_of numbers.now events.now)) }
{
    let ops = script(alloc, events, numbers)?;
    replay_text(alloc, lookups, &ops)
}
