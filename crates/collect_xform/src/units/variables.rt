// What each unit declares more, and where it stands.

ghost use Rattle.std.specs.Prelude.{◌≡◌, ◌≤◌, ◌++◌, IfOk, OnOk, drop, map, take, vec_len};
ghost use Rattle.ada_tree.specs.PlainExpr.{plain_subind};
ghost use Rattle.ada_tree.specs.PlainDecl.{plain_decl};
ghost use Rattle.normal_model.specs.Ranges.{marked, word_at};
ghost use Rattle.collect_model.specs.CollectTree.{answer_declared, part_declared, unit_declared, behind_own};

use crate::recorder::truth;
use ada_tree::{Decl, Memory, NameId, Names, Span, Subind};
use ada_tree_copy::building::{object_of, one_of, plain_of};
use collect_model::AddedNames;
use collect_statements::one_word;
use normal_parts::own_objects;
use replay_asking::making::{move_decls, there_init};
use replay_asking::word;
use std::alloc::Global;
use tree_rewriting::making::{integer_expr, push_decl};

/// A mark without bounds.
pub(crate) fn marked(name: NameId, s: Span) -> Subind
    ensures { plain_subind result ≡ marked (word_at s name) }
{
    Subind {
        mark: word(name, s),
        bounds: None,
    }
}

// The variable of the recorder's answer.
fn answer_declared(alloc: Global, n: &AddedNames, s: Span) -> Result<Decl, Memory>
    ensures { IfOk result (λ made. plain_decl made ≡ answer_declared n.now s) }
{
    let mark = plain_of(Ok(marked(NameId::BOOLEAN, s)));
    let init = there_init(one_of(Ok(truth(false, s))));
    object_of(one_word(alloc, word(n.answer, s)), false, mark, init, s)
}

// The variable of the part that a call took.
fn part_declared(alloc: Global, n: &AddedNames, s: Span) -> Result<Decl, Memory>
    ensures { IfOk result (λ made. plain_decl made ≡ part_declared n.now s) }
{
    let mark = plain_of(Ok(marked(NameId::INTEGER, s)));
    let init = there_init(one_of(Ok(integer_expr(0, s))));
    object_of(one_word(alloc, word(n.part, s)), false, mark, init, s)
}

/// The variables of a unit are declared behind others.
pub fn put_variables(
    alloc: Global,
    n: &AddedNames,
    s: Span,
    out: &mut Vec<Decl>,
) -> Result<(), Memory>
    ensures { OnOk result (map plain_decl out.new.items ≡ map plain_decl out.old.items ++ unit_declared n.now s) }
{
    push_decl(out, answer_declared(alloc, n, s))?;
    push_decl(out, part_declared(alloc, n, s))
}

// Declarations, of which their list keeps none, go to a place of others.
fn insert_decls(decls: &mut Vec<Decl>, place: usize, more: &mut Vec<Decl>) -> Result<(), Memory>
    requires { place ≤ vec_len decls.old }
    ensures { OnOk result (decls.new.items ≡ take place decls.old.items ++ more.old.items ++ drop place decls.old.items) }
{
    let behind = decls.len() - place;
    decls.rotate_left(place);
    move_decls(decls, more)?;
    decls.rotate_left(behind);
    Ok(())
}

/// Declarations, of which their list keeps none, go behind a unit's own ones, in front of the variables of the normal form.
pub fn put_behind_own(
    names: &Names,
    more: &mut Vec<Decl>,
    decls: &mut Vec<Decl>,
) -> Result<(), Memory>
    ensures { OnOk result (map plain_decl decls.new.items ≡ behind_own names.now (map plain_decl more.old.items) (map plain_decl decls.old.items)) }
{
    let place = own_objects(names, decls);
    insert_decls(decls, place, more)
}
