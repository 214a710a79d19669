//! The entries and pragmas of a task (9.1).

ghost use Rattle.std.specs.Prelude.{◌≡◌, ◌<◌, ◌≤◌, codes, IfOk, map, length};
ghost use Rattle.ada_expr_parser.specs.readers.Readers.{fronted};
ghost use Rattle.ada_expr_parser.specs.readers.Readers as lawful;
ghost use Rattle.ada_expr_parser.specs.Gives.{Gives};
ghost use Rattle.ada_phrase_parser.specs.Spelling.{id_of};
ghost use Rattle.ada_task_parser.specs.inner.ReadingTasks as tasks;
ghost use Rattle.ada_task_parser.specs.Tasks.{MPriority};
ghost use Rattle.ada_task_parser.specs.inner.MemberViews.{plain_member};
ghost use Rattle.ada_phrase_parser.specs.Views.{told};

use crate::entries::read_entry;
use crate::pragmas::read_priority;
use ada_expr_parser::{Item, ParseError, Symbol, symbol_in};
use ada_phrase_parser::{Source, add, is_symbol};
use ada_tree::{EntryDecl, Expr, NameId};
use std::alloc::Global;

/// An entry or a pragma of a task.
#[derive(Drop)]
pub(crate) enum Member {
    Entry(EntryDecl),
    Priority(Expr),
}

// Behind `pragma`, in a task.
#[tactic(auto, using(crate::proofs::Steps::steps))]
fn pragma_member<'a>(
    alloc: Global,
    source: &Source<'_>,
    depth: u32,
    priority: NameId,
    items: &'a [Item],
) -> Result<(Member, &'a [Item]), ParseError>
    requires id { priority.0 ≡ id_of source.now.names.now (codes "PRIORITY") }
    ensures tree { Gives (λ x. plain_member x.0) (λ x. x.1.now) result (tasks.priority (told source.now) depth (λ e close. MPriority e) items.now) }
    ensures shorter { IfOk result (λ x. length x.1.now < length items.now) }
{
    let (value, _, rest) = read_priority(alloc, depth, priority, items)?;
    Ok((Member::Priority(value), rest))
}

// A member.
#[tactic(auto, using(crate::proofs::Steps::steps))]
fn read_member<'a>(
    alloc: Global,
    source: &Source<'_>,
    depth: u32,
    priority: NameId,
    items: &'a [Item],
) -> Result<(Member, &'a [Item]), ParseError>
    requires id { priority.0 ≡ id_of source.now.names.now (codes "PRIORITY") }
    ensures tree { Gives (λ x. plain_member x.0) (λ x. x.1.now) result (tasks.member (told source.now) depth items.now) }
    ensures shorter { IfOk result (λ x. length x.1.now < length items.now) }
{
    let [next, rest @ ..] = items else {
        return Err(ParseError::Syntax { at: 0 });
    };
    if let Some(lead) = symbol_in(Symbol::Entry, *next) {
        let (entry, rest) = read_entry(alloc, depth, lead, rest)?;
        return Ok((Member::Entry(entry), rest));
    }
    if is_symbol(Symbol::Pragma, *next) {
        return pragma_member(alloc, source, depth, priority, rest);
    }
    Err(ParseError::Syntax {
        at: next.span.start,
    })
}

// Whether an item begins a member.
fn begins_member(item: Item) -> bool
    ensures { result ≡ tasks.begins_member item }
{
    is_symbol(Symbol::Entry, item) || is_symbol(Symbol::Pragma, item)
}

/// Further members at the end of the list, as long as one begins.
#[tactic(auto, using(crate::proofs::Steps::steps))]
pub(crate) fn members_onto<'a>(
    alloc: Global,
    source: &Source<'_>,
    depth: u32,
    priority: NameId,
    list: &mut Vec<Member>,
    items: &'a [Item],
) -> Result<&'a [Item], ParseError>
    requires id { priority.0 ≡ id_of source.now.names.now (codes "PRIORITY") }
    ensures tree { Gives (λ x. map plain_member list.new.items) (λ x. x.now) result (fronted (map plain_member list.old.items) (lawful.items tasks.begins_member (tasks.member (told source.now) depth) items.now)) }
    ensures shorter { IfOk result (λ x. length x.now ≤ length items.now) }
{
    let mut rest = items;
    'members: loop {
        let [next, ..] = rest else {
            return Err(ParseError::Syntax { at: 0 });
        };
        if !begins_member(*next) {
            return Ok(rest);
        }
        let (member, behind) = read_member(alloc, source, depth, priority, rest)?;
        add(list, member)?;
        rest = behind;
    }
}
