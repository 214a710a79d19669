// Lists of declarations, entries and formals.

ghost use Rattle.std.specs.Prelude.{◌≡◌, ◌≤◌, ◌∷◌, ◌++◌, [], IfOk, OnOk, vec_len};
ghost use Rattle.std.specs.List.{insert};
ghost use Rattle.ada_stmt_copy.specs.expressions.Parts.{OkWith};

use crate::making::statement_lists::{append, front, one};
use ada_stmt_copy::expressions::put;
use ada_tree::{Decl, DeclKind, EntryDecl, Memory, NameId, Span, Word};
use std::alloc::Global;
use std::mem;

/// The declarations of another list, of which it keeps none, go behind others.
pub fn move_decls(list: &mut Vec<Decl>, from: &mut Vec<Decl>) -> Result<(), Memory>
    ensures { OnOk result (list.new.items ≡ list.old.items ++ from.old.items) }
{
    Ok(list.append(from)?)
}

/// A declaration at a place of a list.
pub fn insert_decl(
    list: &mut Vec<Decl>,
    place: usize,
    part: Result<Decl, Memory>,
) -> Result<(), Memory>
    requires { place ≤ vec_len list.old }
    ensures { OnOk result (OkWith part (λ x. list.new.items ≡ insert list.old.items place x)) }
{
    insert_part(list, place, part)
}

// A part at a place of a list.
fn insert_part<T: Drop>(
    list: &mut Vec<T>,
    place: usize,
    part: Result<T, Memory>,
) -> Result<(), Memory>
    requires { place ≤ vec_len list.old }
    ensures { OnOk result (OkWith part (λ x. list.new.items ≡ insert list.old.items place x)) }
{
    match part {
        Ok(part) => Ok(list.insert(place, part)?),
        Err(e) => Err(e),
    }
}

/// A declaration, taken from where it stands, behind others.
pub fn push_taken_decl(list: &mut Vec<Decl>, decl: &mut Decl) -> Result<(), Memory>
    ensures { OnOk result (list.new.items ≡ list.old.items ++ decl.old ∷ []) }
{
    let nothing = Decl {
        kind: DeclKind::IntIo {
            name: Word {
                name: NameId::INTEGER,
                span: Span { start: 0, end: 0 },
            },
        },
        span: Span { start: 0, end: 0 },
    };
    put(list, Ok(mem::replace(decl, nothing)))
}

/// Entries go behind others.
pub fn append_entries(
    list: &mut Vec<EntryDecl>,
    more: Result<Vec<EntryDecl>, Memory>,
) -> Result<(), Memory>
    ensures { OnOk result (OkWith more (λ m. list.new.items ≡ list.old.items ++ m.items)) }
{
    append(list, more)
}

/// A list of one entry.
pub fn one_entry(alloc: Global, part: Result<EntryDecl, Memory>) -> Result<Vec<EntryDecl>, Memory>
    ensures { IfOk result (λ made. OkWith part (λ x. made.items ≡ x ∷ [])) }
{
    one(alloc, part)
}

/// An entry in front of others.
pub fn entries_before(
    alloc: Global,
    part: Result<EntryDecl, Memory>,
    rest: Result<Vec<EntryDecl>, Memory>,
) -> Result<Vec<EntryDecl>, Memory>
    ensures { IfOk result (λ made. OkWith part (λ x. OkWith rest (λ r. made.items ≡ x ∷ r.items))) }
{
    front(alloc, part, rest)
}
