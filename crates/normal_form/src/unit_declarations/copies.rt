// Copies of a body, one for each task that runs it.

ghost use Rattle.std.specs.Prelude.{◌≡◌, ◌++◌, IfOk, OnOk, map};
ghost use Rattle.ada_tree.specs.PlainDecl.{plain_decl};
ghost use Rattle.normal_form.specs.unit_declarations.Copies.{copy_under};

use ada_stmt_copy::StmtCopy;
use ada_tree::{Body, Decl, Memory, NameId, Span, Word};
use ada_tree_copy::building::task_body_of;
use ada_tree_copy::{TreeCopy, copy_decls};
use std::alloc::Global;
use tree_rewriting::making::{keep_decls, push_decl};

/// A body as it is copied for each task that runs it: the name under which it is declared, its objects, the variables behind them, its statements with their handlers, and its place.
#[derive(Clone, Copy)]
pub struct Copied<'a> {
    pub name: Word,
    pub objects: &'a [Decl],
    pub vars: &'a [Decl],
    pub its: &'a Body,
    pub span: Span,
}

// Copies of declarations go behind others.
fn append_copies(alloc: Global, decls: &[Decl], out: &mut Vec<Decl>) -> Result<(), Memory>
    ensures { OnOk result (map plain_decl out.new.items ≡ map plain_decl out.old.items ++ map plain_decl decls.now) }
{
    for decl in decls {
        push_decl(out, decl.copy(alloc))?;
    }
    Ok(())
}

// Copies of the objects of a body and of the variables behind them.
fn objects_with(alloc: Global, objects: &[Decl], vars: &[Decl]) -> Result<Vec<Decl>, Memory>
    ensures { IfOk result (λ made. map plain_decl made.items ≡ map plain_decl objects.now ++ map plain_decl vars.now) }
{
    match copy_decls(alloc, objects) {
        Ok(list) => {
            let mut list = list;
            let done = append_copies(alloc, vars, &mut list);
            keep_decls(list, done)
        }
        Err(e) => Err(e),
    }
}

// A copy of a body under the name of a task.
fn copy_of(alloc: Global, copied: &Copied, name: NameId) -> Result<Decl, Memory>
    ensures { IfOk result (λ made. plain_decl made ≡ copy_under copied.now name) }
{
    let word = Word {
        name,
        span: copied.name.span,
    };
    let objects = objects_with(alloc, copied.objects, copied.vars);
    let its = copied.its.copy(alloc);
    task_body_of(word, objects, its, copied.span)
}

/// Copies of a body go behind other declarations, one for each of these names of tasks.
pub fn push_copies(
    alloc: Global,
    copied: &Copied,
    names: &[NameId],
    out: &mut Vec<Decl>,
) -> Result<(), Memory>
    ensures { OnOk result (map plain_decl out.new.items ≡ map plain_decl out.old.items ++ map (copy_under copied.now) names.now) }
{
    for name in names {
        push_decl(out, copy_of(alloc, copied, *name))?;
    }
    Ok(())
}
