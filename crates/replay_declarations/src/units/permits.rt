// The variables of a unit that hold its permit.

ghost use Rattle.std.specs.Prelude.{◌≡◌, ◌≤◌, IfOk, OnOk, map, length, position};
ghost use Rattle.std.specs.List.{position_or_len};
ghost use Rattle.ada_tree.specs.PlainDecl.{plain_decl};
ghost use Rattle.syn_event.specs.AddedNames.{is_added_name};
ghost use Rattle.replay_model.specs.ReplayTree.{is_added_object, behind_own};
ghost use Rattle.replay_declarations.specs.ids.Arranged.{permit_declared};

use crate::control::permit_words;
use ada_tree::{Decl, DeclKind, Memory, NameId, Names, Span, Subind};
use ada_tree_copy::building::{object_of, one_of, plain_of};
use replay_asking::making::{insert_decl, there_init};
use replay_asking::names::AddedNames;
use replay_asking::word;
use std::alloc::Global;
use tree_rewriting::making::integer_expr;

// Whether a rewriter made the name.
fn is_added_name(names: &Names, id: NameId) -> bool
    ensures { result ≡ is_added_name names.now id }
{
    match names.text(id) {
        Some(text) => text.as_bytes().starts_with(b"DED_"),
        None => false,
    }
}

// Whether a declaration is that of a variable of the normal form.
fn is_added_object(names: &Names, decl: &Decl) -> bool
    ensures { result ≡ is_added_object names.now (plain_decl decl.now) }
{
    match &decl.kind {
        DeclKind::Object { names: words, .. } => match words.as_slice() {
            [word, ..] => is_added_name(names, word.name),
            [] => false,
        },
        _ => false,
    }
}

// The place of the first variable of the normal form.
fn added_place(names: &Names, decls: &[Decl]) -> Option<usize>
    ensures { result ≡ position (λ d. is_added_object names.now (plain_decl d)) decls.now }
{
    decls.iter().position(|decl| is_added_object(names, decl))
}

// How many declarations stand in front of the first variable of the normal form.
fn own_objects(names: &Names, decls: &[Decl]) -> usize
    ensures place { result ≡ position_or_len (λ d. is_added_object names.now (plain_decl d)) decls.now }
    ensures within { result ≤ length decls.now }
{
    match added_place(names, decls) {
        Some(place) => place,
        None => decls.len(),
    }
}

// The declaration of the variables.
fn permit_declared(alloc: Global, n: &AddedNames, s: Span) -> Result<Decl, Memory>
    ensures { IfOk result (λ made. plain_decl made ≡ permit_declared n.now s) }
{
    let mark = Subind {
        mark: word(NameId::INTEGER, s),
        bounds: None,
    };
    let init = there_init(one_of(Ok(integer_expr(0, s))));
    object_of(
        permit_words(alloc, n, s),
        false,
        plain_of(Ok(mark)),
        init,
        s,
    )
}

/// The declaration of the variables goes behind the unit's own declarations, in front of the variables of the normal form.
pub(crate) fn put_permit(
    alloc: Global,
    names: &Names,
    n: &AddedNames,
    s: Span,
    decls: &mut Vec<Decl>,
) -> Result<(), Memory>
    ensures { OnOk result (map plain_decl decls.new.items ≡ behind_own names.now (permit_declared n.now s) (map plain_decl decls.old.items)) }
{
    let place = own_objects(names, decls);
    insert_decl(decls, place, permit_declared(alloc, n, s))
}
