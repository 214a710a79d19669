// The same declarations. Lists are gone through by loops, so recursion follows nesting alone.

ghost use Rattle.std.specs.Prelude.{◌≡◌, ◌↔◌, IsTrue, map};
ghost use Rattle.ada_tree.specs.PlainDecl.{plain_decl, decls_of};
ghost use Rattle.ada_tree.specs.Same.{SameDecl, SameDecls};

use crate::declaration_parts::{same_inits, same_shape, same_task};
use crate::expressions::{same_drange, same_expr, same_subind, same_word, same_words};
use crate::statements::same_body;
use ada_tree::{Decl, DeclKind, Names};

#[cycle(same_decl)]
fn same_decl(left: &Names, right: &Names, a: &Decl, b: &Decl) -> bool
    ensures { IsTrue result ↔ SameDecl left.now right.now (plain_decl a.now) (plain_decl b.now) }
{
    match &a.kind {
        DeclKind::Number { name, value } => match &b.kind {
            DeclKind::Number { name: n, value: v } => {
                same_word(left, right, *name, *n) && same_expr(left, right, value, v)
            }
            _ => false,
        },
        DeclKind::Object {
            names,
            constant,
            shape,
            init,
        } => match &b.kind {
            DeclKind::Object {
                names: n,
                constant: c,
                shape: s,
                init: i,
            } => {
                same_words(left, right, names, n)
                    && *constant == *c
                    && same_shape(left, right, shape, s)
                    && same_inits(left, right, init, i)
            }
            _ => false,
        },
        DeclKind::Enumeration { name, literals } => match &b.kind {
            DeclKind::Enumeration {
                name: n,
                literals: l,
            } => { same_word(left, right, *name, *n) && same_words(left, right, literals, l) }
            _ => false,
        },
        DeclKind::Array { name, index, part } => match &b.kind {
            DeclKind::Array {
                name: n,
                index: i,
                part: p,
            } => {
                same_word(left, right, *name, *n)
                    && same_drange(left, right, index, i)
                    && same_subind(left, right, part, p)
            }
            _ => false,
        },
        DeclKind::Subtype { name, base } => match &b.kind {
            DeclKind::Subtype { name: n, base: m } => {
                same_word(left, right, *name, *n) && same_subind(left, right, base, m)
            }
            _ => false,
        },
        DeclKind::Exception { names } => match &b.kind {
            DeclKind::Exception { names: n } => same_words(left, right, names, n),
            _ => false,
        },
        DeclKind::IntIo { name } => match &b.kind {
            DeclKind::IntIo { name: n } => same_word(left, right, *name, *n),
            _ => false,
        },
        DeclKind::Pragma { value } => match &b.kind {
            DeclKind::Pragma { value: v } => same_expr(left, right, value, v),
            _ => false,
        },
        DeclKind::Task(a) => match &b.kind {
            DeclKind::Task(b) => same_task(left, right, a, b),
            _ => false,
        },
        DeclKind::TaskBody {
            name,
            objects,
            body,
        } => match &b.kind {
            DeclKind::TaskBody {
                name: n,
                objects: o,
                body: d,
            } => {
                same_word(left, right, *name, *n)
                    && same_decls(left, right, objects, o)
                    && same_body(left, right, body, d)
            }
            _ => false,
        },
    }
}

#[cycle(same_decl)]
#[tactic(auto, using(crate::proofs::SameRows::same_decls))]
pub(crate) fn same_decls(left: &Names, right: &Names, a: &[Decl], b: &[Decl]) -> bool
    ensures { IsTrue result ↔ SameDecls left.now right.now (decls_of (map plain_decl a.now)) (decls_of (map plain_decl b.now)) }
{
    if a.len() != b.len() {
        return false;
    }
    for i in 0..a.len() {
        if !same_decl(left, right, &a[i], &b[i]) {
            return false;
        }
    }
    true
}
