// Copies of declarations.

ghost use Rattle.std.specs.Prelude.{◌≡◌, IfOk, map};
ghost use Rattle.ada_tree.specs.PlainDecl.{plain_decl};

use crate::TreeCopy;
use crate::building::{
    array_of, enumeration_of, exception_of, number_of, object_of, pragma_of, subtype_of,
    task_body_of, task_of,
};
use crate::declaration_parts::copy_init;
use ada_stmt_copy::StmtCopy;
use ada_stmt_copy::expressions::{ExprCopy, copy_words, put};
use ada_tree::{Decl, DeclKind, Memory};
use std::alloc::Global;

impl TreeCopy for Decl {
    /// A copy with the same ids and places.
    #[cycle(copy_decl)]
    fn copy(&self, alloc: Global) -> Result<Decl, Memory>
        ensures { IfOk result (λ copy. plain_decl copy ≡ plain_decl self.now) }
    {
        let span = self.span;
        match &self.kind {
            DeclKind::Number { name, value } => number_of(*name, value.copy(alloc), span),
            DeclKind::Object {
                names,
                constant,
                shape,
                init,
            } => {
                let names = copy_words(alloc, names);
                let shape = shape.copy(alloc);
                let init = copy_init(alloc, init);
                object_of(names, *constant, shape, init, span)
            }
            DeclKind::Enumeration { name, literals } => {
                enumeration_of(*name, copy_words(alloc, literals), span)
            }
            DeclKind::Array { name, index, part } => {
                array_of(*name, index.copy(alloc), part.copy(alloc), span)
            }
            DeclKind::Subtype { name, base } => subtype_of(*name, base.copy(alloc), span),
            DeclKind::Exception { names } => exception_of(copy_words(alloc, names), span),
            DeclKind::IntIo { name } => Ok(Decl {
                kind: DeclKind::IntIo { name: *name },
                span,
            }),
            DeclKind::Pragma { value } => pragma_of(value.copy(alloc), span),
            DeclKind::Task(task) => task_of(task.copy(alloc), span),
            DeclKind::TaskBody {
                name,
                objects,
                body,
            } => task_body_of(*name, copy_decls(alloc, objects), body.copy(alloc), span),
        }
    }
}

/// A copy of a list of declarations, with the same ids and places.
#[cycle(copy_decl)]
pub fn copy_decls(alloc: Global, decls: &[Decl]) -> Result<Vec<Decl>, Memory>
    ensures { IfOk result (λ copy. map plain_decl copy.items ≡ map plain_decl decls.now) }
{
    let mut copies = Vec::new(alloc);
    for decl in decls {
        put(&mut copies, decl.copy(alloc))?;
    }
    Ok(copies)
}
