//! Tasks and task types (9.1).

ghost use Rattle.std.specs.Prelude.{◌≡◌, ◌<◌, ◌++◌, ◌∷◌, [], codes, IfOk, IfErr, OnOk, map, length};
ghost use Rattle.ada_tree.specs.PlainDecl.{plain_decl, plain_entry, plain_task, plain_priority, DTask};
ghost use Rattle.ada_expr_parser.specs.declared.errors.ParseError.TheVariants.{Memory};
ghost use Rattle.ada_expr_parser.specs.Trees.{from_to};
ghost use Rattle.ada_expr_parser.specs.Gives.{Gives};
ghost use Rattle.ada_expr_parser.specs.readers.Readers.{bind};
ghost use Rattle.ada_expr_parser.specs.readers.Readers as lawful;
ghost use Rattle.ada_phrase_parser.specs.Spelling.{id_of};
ghost use Rattle.ada_phrase_parser.specs.Reading as reading;
ghost use Rattle.ada_task_parser.specs.inner.ReadingTasks as tasks;
ghost use Rattle.ada_task_parser.specs.Tasks.{entries_in, priorities_in};
ghost use Rattle.ada_task_parser.specs.inner.MemberViews.{plain_member};
ghost use Rattle.ada_phrase_parser.specs.Views.{told};

use crate::task_items::{Member, members_onto};
use ada_expr_parser::{Item, ParseError, Symbol, expect, symbol_in};
use ada_phrase_parser::{Source, add, from_to, is_again};
use ada_tree::{Decl, DeclKind, EntryDecl, NameId, Priority, Span, TaskUnit, Word};
use std::alloc::Global;

// One more member: an entry, or a pragma behind so many entries.
fn add_member(
    entries: &mut Vec<EntryDecl>,
    priorities: &mut Vec<Priority>,
    member: Member,
) -> Result<(), ParseError>
    ensures entries { OnOk result (map plain_entry entries.new.items ≡ map plain_entry entries.old.items ++ entries_in (plain_member member ∷ [])) }
    ensures priorities { OnOk result (map plain_priority priorities.new.items ≡ map plain_priority priorities.old.items ++ priorities_in (length entries.old.items) (plain_member member ∷ [])) }
    ensures cause { IfErr result (λ e. e ≡ Memory) }
{
    match member {
        Member::Entry(entry) => add(entries, entry),
        Member::Priority(value) => {
            let place = entries.len();
            if place > u32::MAX as usize {
                return Err(ParseError::Memory);
            }
            add(
                priorities,
                Priority {
                    place: place as u32,
                    value,
                },
            )
        }
    }
}

// A task with these members.
fn task_of(
    alloc: Global,
    of_kind: bool,
    name: Word,
    members: Vec<Member>,
) -> Result<TaskUnit, ParseError>
    ensures task { IfOk result (λ task. plain_task task ≡ tasks.task_of of_kind name (map plain_member members.items)) }
    ensures cause { IfErr result (λ e. e ≡ Memory) }
{
    let mut entries = Vec::new(alloc);
    let mut priorities = Vec::new(alloc);
    'members: for member in members {
        add_member(&mut entries, &mut priorities, member)?;
    }
    Ok(TaskUnit {
        name,
        of_kind,
        entries,
        priorities,
    })
}

// A task with these members, from one place to another.
fn placed_task(
    alloc: Global,
    lead: Span,
    close: Span,
    of_kind: bool,
    name: Word,
    members: Vec<Member>,
) -> Result<Decl, ParseError>
    ensures decl { IfOk result (λ x. plain_decl x ≡ DTask (tasks.task_of of_kind name (map plain_member members.items)) (from_to lead close)) }
    ensures cause { IfErr result (λ e. e ≡ Memory) }
{
    let task = task_of(alloc, of_kind, name, members)?;
    let span = from_to(lead, close);
    Ok(Decl {
        kind: DeclKind::Task(task),
        span,
    })
}

// The semicolon of a task.
#[tactic(auto, using(crate::proofs::Steps::steps))]
fn task_close<'a>(
    alloc: Global,
    lead: Span,
    of_kind: bool,
    name: Word,
    members: Vec<Member>,
    items: &'a [Item],
) -> Result<(Decl, &'a [Item]), ParseError>
    ensures tree { Gives (λ x. plain_decl x.0) (λ x. x.1.now) result (reading.closed (λ close. DTask (tasks.task_of of_kind name (map plain_member members.items)) (from_to lead close)) items.now) }
    ensures shorter { IfOk result (λ x. length x.1.now < length items.now) }
{
    let (close, rest) = expect(Symbol::Semicolon, items)?;
    let task = placed_task(alloc, lead, close, of_kind, name, members)?;
    Ok((task, rest))
}

// The end of a task, with its name or without.
#[tactic(auto, using(crate::proofs::Steps::steps))]
fn task_end<'a>(
    alloc: Global,
    lead: Span,
    of_kind: bool,
    name: Word,
    members: Vec<Member>,
    items: &'a [Item],
) -> Result<(Decl, &'a [Item]), ParseError>
    ensures tree { Gives (λ x. plain_decl x.0) (λ x. x.1.now) result (reading.end_of name (λ close. DTask (tasks.task_of of_kind name (map plain_member members.items)) (from_to lead close)) items.now) }
    ensures shorter { IfOk result (λ x. length x.1.now < length items.now) }
{
    let (_, items) = expect(Symbol::End, items)?;
    let [next, rest @ ..] = items else {
        return Err(ParseError::Syntax { at: 0 });
    };
    if is_again(name, *next) {
        return task_close(alloc, lead, of_kind, name, members, rest);
    }
    task_close(alloc, lead, of_kind, name, members, items)
}

// Behind `task [type] NAME is`.
#[tactic(auto, using(crate::proofs::Steps::steps, ada_decl_parser::proofs::DeclSteps::fronted_none))]
fn task_members<'a>(
    alloc: Global,
    source: &Source<'_>,
    depth: u32,
    priority: NameId,
    lead: Span,
    of_kind: bool,
    name: Word,
    items: &'a [Item],
) -> Result<(Decl, &'a [Item]), ParseError>
    requires id { priority.0 ≡ id_of source.now.names.now (codes "PRIORITY") }
    ensures tree { Gives (λ x. plain_decl x.0) (λ x. x.1.now) result (bind (lawful.items tasks.begins_member (tasks.member (told source.now) depth)) (λ members. reading.end_of name (λ close. DTask (tasks.task_of of_kind name members) (from_to lead close))) items.now) }
    ensures shorter { IfOk result (λ x. length x.1.now < length items.now) }
{
    let mut members = Vec::new(alloc);
    let rest = members_onto(alloc, source, depth, priority, &mut members, items)?;
    task_end(alloc, lead, of_kind, name, members, rest)
}

/// Behind `task [type] NAME`.
#[tactic(auto, using(crate::proofs::Steps::steps))]
pub fn task_rest<'a>(
    alloc: Global,
    source: &Source<'_>,
    depth: u32,
    priority: NameId,
    lead: Span,
    of_kind: bool,
    name: Word,
    items: &'a [Item],
) -> Result<(Decl, &'a [Item]), ParseError>
    requires id { priority.0 ≡ id_of source.now.names.now (codes "PRIORITY") }
    ensures tree { Gives (λ x. plain_decl x.0) (λ x. x.1.now) result (tasks.task_rest (told source.now) depth lead of_kind name items.now) }
    ensures shorter { IfOk result (λ x. length x.1.now < length items.now) }
{
    let [next, rest @ ..] = items else {
        return Err(ParseError::Syntax { at: 0 });
    };
    if let Some(close) = symbol_in(Symbol::Semicolon, *next) {
        let task = placed_task(alloc, lead, close, of_kind, name, Vec::new(alloc))?;
        return Ok((task, rest));
    }
    let (_, rest) = expect(Symbol::Is, items)?;
    task_members(alloc, source, depth, priority, lead, of_kind, name, rest)
}
