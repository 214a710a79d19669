// The variables of places.

ghost use Rattle.std.specs.Prelude.{◌≡◌, ◌∷◌, ◌++◌, ◌+◌, [], IfOk, OnOk, map};
ghost use Rattle.ada_tree.specs.PlainDecl.{plain_decl};
ghost use Rattle.collect_model.specs.aborts.AbortTree.{places_declared, refused_declared, taken_declared};
ghost use Rattle.collect_abort.specs.Looked.{told_of};

use crate::teller::{AbortReporter, refused, taken};
use ada_tree::{Decl, Memory, NameId, Span, Subind};
use ada_tree_copy::building::{object_of, one_of, plain_of};
use collect_statements::one_word;
use collect_xform::recorder::truth;
use replay_asking::making::there_init;
use replay_asking::word;
use std::alloc::Global;
use tree_rewriting::making::{integer_expr, push_decl};

// The variable that keeps a caller.
fn taken_declared(alloc: Global, name: NameId, s: Span) -> Result<Decl, Memory>
    ensures { IfOk result (λ made. plain_decl made ≡ taken_declared s name) }
{
    let mark = Subind {
        mark: word(NameId::INTEGER, s),
        bounds: None,
    };
    let init = there_init(one_of(Ok(integer_expr(0, s))));
    object_of(
        one_word(alloc, word(name, s)),
        false,
        plain_of(Ok(mark)),
        init,
        s,
    )
}

// The variable that keeps whether a caller is refused.
fn refused_declared(alloc: Global, name: NameId, s: Span) -> Result<Decl, Memory>
    ensures { IfOk result (λ made. plain_decl made ≡ refused_declared s name) }
{
    let mark = Subind {
        mark: word(NameId::BOOLEAN, s),
        bounds: None,
    };
    let init = there_init(one_of(Ok(truth(false, s))));
    object_of(
        one_word(alloc, word(name, s)),
        false,
        plain_of(Ok(mark)),
        init,
        s,
    )
}

// The variables of a place go behind others.
fn put_place(
    alloc: Global,
    x: &AbortReporter,
    place: u32,
    s: Span,
    out: &mut Vec<Decl>,
) -> Result<(), Memory>
    ensures { OnOk result (map plain_decl out.new.items ≡ map plain_decl out.old.items ++ taken_declared s ((told_of x.now).taken place) ∷ refused_declared s ((told_of x.now).refused place) ∷ []) }
{
    let caller = taken(alloc, x, place)?;
    push_decl(out, taken_declared(alloc, caller, s))?;
    let answer = refused(alloc, x, place)?;
    push_decl(out, refused_declared(alloc, answer, s))
}

/// The variables of the first places, so many, go behind others.
pub(crate) fn put_places(
    alloc: Global,
    x: &AbortReporter,
    count: u32,
    s: Span,
    out: &mut Vec<Decl>,
) -> Result<(), Memory>
    ensures { OnOk result (map plain_decl out.new.items ≡ map plain_decl out.old.items ++ places_declared (told_of x.now) s count) }
{
    for before in 0..count {
        put_place(alloc, x, before + 1, s, out)?;
    }
    Ok(())
}
