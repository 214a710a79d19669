//! Entries and families of entries (9.5).

ghost use Rattle.std.specs.Prelude.{◌≡◌, ◌<◌, ◌≤◌, [], None, IfOk, length};
ghost use Rattle.ada_expr_parser.specs.readers.Readers.{bind, token};
ghost use Rattle.ada_tree.specs.PlainExpr.{plain_drange};
ghost use Rattle.ada_tree.specs.PlainDecl.{plain_entry};
ghost use Rattle.ada_expr_parser.specs.Tests as tests;
ghost use Rattle.ada_expr_parser.specs.Gives.{Gives};
ghost use Rattle.ada_phrase_parser.specs.Reading as reading;
ghost use Rattle.ada_task_parser.specs.inner.ReadingTasks as tasks;
ghost use Rattle.ada_task_parser.specs.inner.TaskViews.{family_of};

use ada_expr_parser::{Item, ParseError, Symbol, expect, expect_word, read_drange};
use ada_phrase_parser::{formals_from, from_to, is_formal_mark, is_symbol, read_formals, word_in};
use ada_tree::{Drange, EntryDecl, Formal, Span};
use std::alloc::Global;

// The range of a family, formals, both or nothing.
#[derive(Drop)]
struct FamilyBehind {
    family: Option<Drange>,
    formals: Vec<Formal>,
}

// No family and no formals.
fn nothing_behind(alloc: Global) -> FamilyBehind
    ensures family { result.family ≡ None }
    ensures formals { result.formals.items ≡ [] }
{
    FamilyBehind {
        family: None,
        formals: Vec::new(alloc),
    }
}

// A range has been read: its parenthesis closes, and formals may follow.
#[tactic(auto, using(crate::proofs::Steps::steps))]
fn behind_range<'a>(
    alloc: Global,
    family: Drange,
    items: &'a [Item],
) -> Result<(FamilyBehind, &'a [Item]), ParseError>
    ensures tree { Gives (λ x. family_of x.0.family x.0.formals.items) (λ x. x.1.now) result (reading.behind_index (plain_drange family) items.now) }
    ensures shorter { IfOk result (λ x. length x.1.now < length items.now) }
{
    let (_, rest) = expect(Symbol::RightParen, items)?;
    let (formals, rest) = read_formals(alloc, rest)?;
    Ok((
        FamilyBehind {
            family: Some(family),
            formals,
        },
        rest,
    ))
}

// Behind `entry NAME (` where a name stands.
#[tactic(auto, using(crate::proofs::Steps::steps))]
fn behind_name<'a>(
    alloc: Global,
    depth: u32,
    items: &'a [Item],
) -> Result<(FamilyBehind, &'a [Item]), ParseError>
    ensures tree { Gives (λ x. family_of x.0.family x.0.formals.items) (λ x. x.1.now) result (bind (token tests.word) (tasks.entry_name depth) items.now) }
    ensures shorter { IfOk result (λ x. length x.1.now < length items.now) }
{
    let (name, rest) = expect_word(items)?;
    let [next, ..] = rest else {
        return Err(ParseError::Syntax { at: 0 });
    };
    if is_formal_mark(*next) {
        let (formals, rest) = formals_from(alloc, name, rest)?;
        return Ok((
            FamilyBehind {
                family: None,
                formals,
            },
            rest,
        ));
    }
    let (family, rest) = read_drange(alloc, depth, items)?;
    behind_range(alloc, family, rest)
}

// Behind `entry NAME`.
#[tactic(auto, using(crate::proofs::Steps::steps))]
fn family_behind<'a>(
    alloc: Global,
    depth: u32,
    items: &'a [Item],
) -> Result<(FamilyBehind, &'a [Item]), ParseError>
    ensures tree { Gives (λ x. family_of x.0.family x.0.formals.items) (λ x. x.1.now) result (tasks.entry_behind depth items.now) }
    ensures shorter { IfOk result (λ x. length x.1.now ≤ length items.now) }
{
    let [next, rest @ ..] = items else {
        return Err(ParseError::Syntax { at: 0 });
    };
    if !is_symbol(Symbol::LeftParen, *next) {
        return Ok((nothing_behind(alloc), items));
    }
    let [first, ..] = rest else {
        return Err(ParseError::Syntax { at: 0 });
    };
    if word_in(*first).is_some() {
        return behind_name(alloc, depth, rest);
    }
    let (family, rest) = read_drange(alloc, depth, rest)?;
    behind_range(alloc, family, rest)
}

/// Behind `entry`.
#[tactic(auto, using(crate::proofs::Steps::steps))]
pub(crate) fn read_entry<'a>(
    alloc: Global,
    depth: u32,
    lead: Span,
    items: &'a [Item],
) -> Result<(EntryDecl, &'a [Item]), ParseError>
    ensures tree { Gives (λ x. plain_entry x.0) (λ x. x.1.now) result (tasks.entry_rest depth lead items.now) }
    ensures shorter { IfOk result (λ x. length x.1.now < length items.now) }
{
    let (name, rest) = expect_word(items)?;
    let (behind, rest) = family_behind(alloc, depth, rest)?;
    let (close, rest) = expect(Symbol::Semicolon, rest)?;
    let span = from_to(lead, close);
    Ok((
        EntryDecl {
            name,
            family: behind.family,
            formals: behind.formals,
            span,
        },
        rest,
    ))
}
