//! Declarations (3.9). Each reader takes how many levels may stand below the root of each expression, and those of any
//! declaration the id of PRIORITY.

ghost use Rattle.std.specs.Prelude.{◌≡◌, ◌<◌, ◌≤◌, false, codes, IfOk, map, length};
ghost use Rattle.ada_expr_parser.specs.readers.Readers.{fronted};
ghost use Rattle.ada_tree.specs.PlainDecl.{plain_decl, decls_of};
ghost use Rattle.ada_expr_parser.specs.Gives.{Gives};
ghost use Rattle.ada_phrase_parser.specs.Spelling.{id_of};
ghost use Rattle.ada_decl_parser.specs.inner.ReadingDeclarations as declarations;
ghost use Rattle.ada_parser.specs.inner.ReadingDeclarativeParts as declarative;
ghost use Rattle.ada_phrase_parser.specs.Views.{told};

use crate::task_bodies::read_task;
use ada_decl_parser::{read_instance, read_named, subtype_rest, type_rest};
use ada_expr_parser::{Item, ParseError, Symbol, expect, expect_word};
use ada_phrase_parser::{Source, add, is_symbol, stands, word_in};
use ada_task_parser::read_pragma;
use ada_tree::{Decl, DeclKind, NameId, Span};
use std::alloc::Global;

// Behind `type`.
#[tactic(auto, using(crate::proofs::Steps::steps))]
fn read_type<'a>(
    alloc: Global,
    depth: u32,
    lead: Span,
    items: &'a [Item],
) -> Result<(Decl, &'a [Item]), ParseError>
    ensures tree { Gives (λ x. plain_decl x.0) (λ x. x.1.now) result (declarative.name_is (declarations.type_rest depth lead) items.now) }
    ensures shorter { IfOk result (λ x. length x.1.now < length items.now) }
{
    let (name, rest) = expect_word(items)?;
    let (_, rest) = expect(Symbol::Is, rest)?;
    type_rest(alloc, depth, lead, name, rest)
}

// Behind `subtype`.
#[tactic(auto, using(crate::proofs::Steps::steps))]
fn read_subtype<'a>(
    alloc: Global,
    depth: u32,
    lead: Span,
    items: &'a [Item],
) -> Result<(Decl, &'a [Item]), ParseError>
    ensures tree { Gives (λ x. plain_decl x.0) (λ x. x.1.now) result (declarative.name_is (declarations.subtype_rest depth lead) items.now) }
    ensures shorter { IfOk result (λ x. length x.1.now < length items.now) }
{
    let (name, rest) = expect_word(items)?;
    let (_, rest) = expect(Symbol::Is, rest)?;
    subtype_rest(alloc, depth, lead, name, rest)
}

// Behind `package`.
#[tactic(auto, using(crate::proofs::Steps::steps))]
fn read_package<'a>(lead: Span, items: &'a [Item]) -> Result<(Decl, &'a [Item]), ParseError>
    ensures tree { Gives (λ x. plain_decl x.0) (λ x. x.1.now) result (declarative.name_is (declarations.instance lead) items.now) }
    ensures shorter { IfOk result (λ x. length x.1.now < length items.now) }
{
    let (name, rest) = expect_word(items)?;
    let (_, rest) = expect(Symbol::Is, rest)?;
    read_instance(lead, name, rest)
}

// A declaration, by its first item.
#[tactic(auto, using(crate::proofs::Steps::steps))]
fn read_decl<'a>(
    alloc: Global,
    source: &Source<'_>,
    depth: u32,
    priority: NameId,
    items: &'a [Item],
) -> Result<(Decl, &'a [Item]), ParseError>
    requires shallow { depth ≤ 298 }
    requires id { priority.0 ≡ id_of source.now.names.now (codes "PRIORITY") }
    ensures tree { Gives (λ x. plain_decl x.0) (λ x. x.1.now) result (declarative.decl (told source.now) depth items.now) }
    ensures shorter { IfOk result (λ x. length x.1.now < length items.now) }
{
    let [next, rest @ ..] = items else {
        return Err(ParseError::Syntax { at: 0 });
    };
    let lead = next.span;
    if word_in(*next).is_some() {
        return read_named(alloc, depth, items);
    }
    if stands(Symbol::Type, *next) {
        return read_type(alloc, depth, lead, rest);
    }
    if stands(Symbol::Subtype, *next) {
        return read_subtype(alloc, depth, lead, rest);
    }
    if stands(Symbol::Package, *next) {
        return read_package(lead, rest);
    }
    if stands(Symbol::Pragma, *next) {
        return read_pragma(alloc, source, depth, priority, lead, rest);
    }
    if stands(Symbol::Task, *next) {
        return read_task(alloc, source, depth, priority, lead, rest);
    }
    Err(ParseError::Syntax { at: lead.start })
}

// Whether an item begins a declaration that may stand behind a body.
fn begins_later(item: Item) -> bool
    ensures { result ≡ declarative.begins_later item }
{
    is_symbol(Symbol::Package, item) || is_symbol(Symbol::Task, item)
}

// Whether an item begins a declaration, by whether a body stands before it.
fn begins_decl(behind: bool, item: Item) -> bool
    ensures { result ≡ declarative.begins_behind behind item }
{
    if behind {
        return begins_later(item);
    }
    word_in(item).is_some()
        || is_symbol(Symbol::Type, item)
        || is_symbol(Symbol::Subtype, item)
        || is_symbol(Symbol::Pragma, item)
        || begins_later(item)
}

// Whether a declaration is a task's body.
fn is_body(decl: &Decl) -> bool
    ensures { result ≡ declarative.is_body (plain_decl decl.now) }
{
    matches!(decl.kind, DeclKind::TaskBody { .. })
}

// Declarations at the end of the list, as long as one begins.
#[tactic(auto, using(crate::proofs::Steps::steps))]
fn decls_onto<'a>(
    alloc: Global,
    source: &Source<'_>,
    depth: u32,
    priority: NameId,
    list: &mut Vec<Decl>,
    items: &'a [Item],
) -> Result<&'a [Item], ParseError>
    requires shallow { depth ≤ 298 }
    requires id { priority.0 ≡ id_of source.now.names.now (codes "PRIORITY") }
    ensures tree { Gives (λ x. map plain_decl list.new.items) (λ x. x.now) result (fronted (map plain_decl list.old.items) (declarative.decl_list (told source.now) depth false items.now)) }
    ensures shorter { IfOk result (λ x. length x.now ≤ length items.now) }
{
    let mut rest = items;
    let mut behind = false;
    'decls: loop {
        let [next, ..] = rest else {
            return Err(ParseError::Syntax { at: 0 });
        };
        if !begins_decl(behind, *next) {
            return Ok(rest);
        }
        let (decl, after) = read_decl(alloc, source, depth, priority, rest)?;
        behind = behind || is_body(&decl);
        add(list, decl)?;
        rest = after;
    }
}

/// Declarations, none or some. Behind the first body stand bodies, tasks and instances alone.
#[tactic(auto, using(crate::proofs::Steps::rows))]
pub(crate) fn read_decls<'a>(
    alloc: Global,
    source: &Source<'_>,
    depth: u32,
    priority: NameId,
    items: &'a [Item],
) -> Result<(Vec<Decl>, &'a [Item]), ParseError>
    requires shallow { depth ≤ 298 }
    requires id { priority.0 ≡ id_of source.now.names.now (codes "PRIORITY") }
    ensures tree { Gives (λ x. decls_of (map plain_decl x.0.items)) (λ x. x.1.now) result (declarative.decls (told source.now) depth items.now) }
    ensures shorter { IfOk result (λ x. length x.1.now ≤ length items.now) }
{
    let mut list = Vec::new(alloc);
    let rest = decls_onto(alloc, source, depth, priority, &mut list, items)?;
    Ok((list, rest))
}
