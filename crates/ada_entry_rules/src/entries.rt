// The entries of tasks.

ghost use Rattle.std.specs.Prelude.{◌≡◌, ◌++◌, true, [], map, option_map, OnOk, IfOk};
ghost use Rattle.ada_tree.specs.PlainExpr.{plain_drange};
ghost use Rattle.ada_tree.specs.PlainStmt.{plain_formal};
ghost use Rattle.ada_tree.specs.PlainDecl as decl;
ghost use Rattle.ada_static_rules.specs.Scope.{scalar_kind, marking};
ghost use Rattle.ada_static_rules.specs.Declaring.{family_of, entry_family, formal_parts, entry_part};
ghost use Rattle.ada_static_rules.specs.Sites.{if_there, drange_sites, entry_sites, entries_sites};
ghost use Rattle.ada_scopes.specs.Entries.{plain_range, plain_family, plain_part, plain_entry};
ghost use Rattle.ada_entry_rules.specs.EntryDecls.{part_of, IsFamily, IsEntry, AreEntries};

use crate::accept_heads::walk_formals;
use ada_expr_rules::nodes::kind_of_mark;
use ada_expr_rules::ranges::walk_range;
use ada_scopes::denotations::{EntryPart, Family, FormalPart, Range};
use ada_scopes::readings::mark_named;
use ada_scopes::scope::Scope;
use ada_static_rules::refusals::{Refusal, first};
use ada_tree::{Drange, EntryDecl, Formal, NameId, Word};
use std::alloc::{AllocError, Global};

/// The members of an entry, and the first refusal at the places of their range.
#[derive(Drop)]
pub struct WalkedFamily {
    pub family: Family,
    pub refusal: Option<Refusal>,
}

/// An entry, and the first refusal at its places.
#[derive(Drop)]
pub struct WalkedEntry {
    pub part: EntryPart,
    pub refusal: Option<Refusal>,
}

/// The entries of a task, and the first refusal at their places.
#[derive(Drop)]
pub struct WalkedEntries {
    pub parts: Vec<EntryPart>,
    pub refusal: Option<Refusal>,
}

// The kind of a mark, where it is a scalar one.
fn kind_named(scope: &Scope, id: NameId) -> Option<u32>
    ensures { result ≡ scalar_kind (marking scope.now id) }
{
    kind_of_mark(mark_named(scope, id))
}

// One formal of an entry, with the kind of its mark.
fn formal_part(formal: &Formal, kind: Option<u32>, word: Word) -> FormalPart
    ensures { plain_part result ≡ part_of (plain_formal formal.now) kind word }
{
    FormalPart {
        name: word.name,
        mode: formal.mode,
        mark: formal.mark.name,
        kind,
    }
}

// Adds the formals of one mode and one mark.
fn add_group(
    parts: &mut Vec<FormalPart>,
    formal: &Formal,
    kind: Option<u32>,
) -> Result<(), AllocError>
    ensures { OnOk result (map plain_part parts.new.items ≡ map plain_part parts.old.items ++ map (part_of (plain_formal formal.now) kind) formal.now.names.items) }
{
    for word in &formal.names {
        parts.push(formal_part(formal, kind, *word))?;
    }
    Ok(())
}

// The formals of an entry.
fn formal_parts(
    scope: &Scope,
    alloc: Global,
    formals: &[Formal],
) -> Result<Vec<FormalPart>, AllocError>
    ensures { IfOk result (λ parts. map plain_part parts.items ≡ formal_parts scope.now (map plain_formal formals.now)) }
{
    let mut parts = Vec::new(alloc);
    for formal in formals {
        add_group(&mut parts, formal, kind_named(scope, formal.mark.name))?;
    }
    Ok(parts)
}

// The members of a family, where their range is known.
fn family_over(range: Option<Range>) -> Family
    ensures { plain_family result ≡ family_of (option_map plain_range range) }
{
    match range {
        Some(range) => Family::Over(range),
        None => Family::Unclear,
    }
}

// Walks the range of a family, which may be left out.
fn walk_family(scope: &Scope, index: &Option<Drange>) -> WalkedFamily
    ensures { IsFamily (if_there (drange_sites true scope.now) (option_map plain_drange index.now)) (entry_family scope.now (option_map plain_drange index.now)) result }
{
    match index {
        Some(index) => {
            let walked = walk_range(scope, true, index);
            WalkedFamily {
                family: family_over(walked.range),
                refusal: walked.refusal,
            }
        }
        None => WalkedFamily {
            family: Family::Single,
            refusal: None,
        },
    }
}

// Walks the declaration of an entry.
fn walk_entry(scope: &Scope, alloc: Global, entry: &EntryDecl) -> Result<WalkedEntry, AllocError>
    ensures { IfOk result (IsEntry (entry_sites scope.now [] (decl.plain_entry entry.now)) (entry_part scope.now (decl.plain_entry entry.now))) }
{
    let walked = walk_family(scope, &entry.family);
    let formals = walk_formals(scope, &entry.formals);
    let parts = formal_parts(scope, alloc, &entry.formals)?;
    Ok(WalkedEntry {
        part: EntryPart {
            name: entry.name.name,
            family: walked.family,
            formals: parts,
        },
        refusal: first(walked.refusal, formals),
    })
}

/// Walks the declarations of the entries of a task.
pub fn walk_entries(
    scope: &Scope,
    alloc: Global,
    entries: &[EntryDecl],
) -> Result<WalkedEntries, AllocError>
    ensures { IfOk result (AreEntries (entries_sites scope.now [] (map decl.plain_entry entries.now)) (map (entry_part scope.now) (map decl.plain_entry entries.now))) }
{
    let mut parts = Vec::new(alloc);
    let mut refusal = None;
    for entry in entries {
        let walked = walk_entry(scope, alloc, entry)?;
        parts.push(walked.part)?;
        refusal = first(refusal, walked.refusal);
    }
    Ok(WalkedEntries { parts, refusal })
}
