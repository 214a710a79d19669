// Declarations of variables, and lists of declarations.

ghost use Rattle.std.specs.Prelude.{◌≡◌, ◌++◌, ◌∷◌, [], false, None, IfOk, OnOk};
ghost use Rattle.ada_tree.specs.PlainExpr.{plain_subind};
ghost use Rattle.ada_tree.specs.PlainDecl.{plain_decl, DObject, OPlain};
ghost use Rattle.ada_stmt_copy.specs.expressions.Parts.{OkWith};

use crate::making::node_lists::{append, keep, one};
use ada_stmt_copy::expressions::{both, put};
use ada_tree::{Decl, DeclKind, EntryDecl, Memory, Shape, Span, Subind, Word};
use std::alloc::Global;

/// The declaration of one variable of a scalar subtype, without initial value.
pub fn variable_decl(
    alloc: Global,
    name: Word,
    subtype: Result<Subind, Memory>,
    span: Span,
) -> Result<Decl, Memory>
    ensures { IfOk result (λ made. OkWith subtype (λ x. plain_decl made ≡ DObject (name ∷ []) false (OPlain (plain_subind x)) None span)) }
{
    match both(one(alloc, Ok(name)), subtype) {
        Ok((names, subtype)) => Ok(Decl {
            kind: DeclKind::Object {
                names,
                constant: false,
                shape: Shape::Plain(subtype),
                init: None,
            },
            span,
        }),
        Err(e) => Err(e),
    }
}

/// A declaration behind others.
pub fn push_decl(list: &mut Vec<Decl>, part: Result<Decl, Memory>) -> Result<(), Memory>
    ensures { OnOk result (OkWith part (λ x. list.new.items ≡ list.old.items ++ x ∷ [])) }
{
    put(list, part)
}

/// An entry behind others.
pub fn push_entry(list: &mut Vec<EntryDecl>, part: Result<EntryDecl, Memory>) -> Result<(), Memory>
    ensures { OnOk result (OkWith part (λ x. list.new.items ≡ list.old.items ++ x ∷ [])) }
{
    put(list, part)
}

/// Declarations that were put into a list, where that went well.
pub fn keep_decls(list: Vec<Decl>, done: Result<(), Memory>) -> Result<Vec<Decl>, Memory>
    ensures { IfOk result (λ made. OkWith done (λ _. made.items ≡ list.items)) }
{
    keep(list, done)
}

/// Entries that were put into a list, where that went well.
pub fn keep_entries(
    list: Vec<EntryDecl>,
    done: Result<(), Memory>,
) -> Result<Vec<EntryDecl>, Memory>
    ensures { IfOk result (λ made. OkWith done (λ _. made.items ≡ list.items)) }
{
    keep(list, done)
}

/// The declarations of another list go behind those of a list, where what came before went well; nothing is copied.
pub fn append_decls(
    list: &mut Vec<Decl>,
    more: Vec<Decl>,
    done: Result<(), Memory>,
) -> Result<(), Memory>
    ensures { OnOk result (OkWith done (λ _. list.new.items ≡ list.old.items ++ more.items)) }
{
    append(list, more, done)
}
