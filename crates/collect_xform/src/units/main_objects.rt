// What main declares more.

ghost use Rattle.std.specs.Prelude.{◌≡◌, ◌++◌, IfOk, OnOk, map};
ghost use Rattle.std.specs.List.{list_any};
ghost use Rattle.ada_tree.specs.PlainDecl.{plain_decl};
ghost use Rattle.ada_tree.specs.PlainProgram.{plain_program};
ghost use Rattle.collect_model.specs.CollectTree.{is_int_io, int_io_declared, flags_type, main_declared, objects_told};
ghost use Rattle.collect_statements.specs.Looked.{teller_of};

use crate::units::variables::{marked, put_behind_own, put_variables};
use ada_tree::{Bounds, Decl, DeclKind, Drange, Memory, NameId, Program, Span};
use ada_tree_copy::building::array_of;
use collect_model::AddedNames;
use collect_statements::Reporter;
use normal_parts::last_task;
use replay_asking::word;
use std::alloc::Global;
use tree_rewriting::making::{integer_expr, push_decl};

// Whether a declaration is an instance of INTEGER_IO.
fn is_int_io(decl: &Decl) -> bool
    ensures { result ≡ is_int_io (plain_decl decl.now) }
{
    match &decl.kind {
        DeclKind::IntIo { .. } => true,
        _ => false,
    }
}

/// Whether one of the declarations is an instance of INTEGER_IO.
pub fn has_int_io(decls: &[Decl]) -> bool
    ensures { result ≡ list_any (λ d. is_int_io (plain_decl d)) decls.now }
{
    decls.iter().any(|decl| is_int_io(decl))
}

// The instance of INTEGER_IO is declared behind others, unless there is one.
fn put_int_io(n: &AddedNames, s: Span, instance: bool, out: &mut Vec<Decl>) -> Result<(), Memory>
    ensures { OnOk result (map plain_decl out.new.items ≡ map plain_decl out.old.items ++ int_io_declared n.now s instance) }
{
    if instance {
        return Ok(());
    }
    let instance = Decl {
        kind: DeclKind::IntIo {
            name: word(n.int_io, s),
        },
        span: s,
    };
    push_decl(out, Ok(instance))
}

// The type of an array with one flag a task.
fn flags_type(n: &AddedNames, s: Span, last: u32) -> Result<Decl, Memory>
    ensures { IfOk result (λ made. plain_decl made ≡ flags_type n.now s last) }
{
    let all_tasks = Drange::Given(Bounds {
        first: integer_expr(0, s),
        last: integer_expr(last, s),
    });
    array_of(
        word(n.flags, s),
        Ok(all_tasks),
        Ok(marked(NameId::BOOLEAN, s)),
        s,
    )
}

/// What main declares more goes behind others.
pub fn put_main(
    alloc: Global,
    n: &AddedNames,
    s: Span,
    instance: bool,
    last: u32,
    out: &mut Vec<Decl>,
) -> Result<(), Memory>
    ensures { OnOk result (map plain_decl out.new.items ≡ map plain_decl out.old.items ++ main_declared n.now s instance last) }
{
    put_int_io(n, s, instance, out)?;
    push_decl(out, flags_type(n, s, last))?;
    put_variables(alloc, n, s, out)
}

/// The objects of main, where the text is that of the normal form `q`, get what main declares more.
pub(crate) fn put_main_objects(
    alloc: Global,
    x: &Reporter,
    q: &Program,
    objects: &mut Vec<Decl>,
) -> Result<(), Memory>
    ensures { OnOk result (map plain_decl objects.new.items ≡ objects_told (teller_of x.now) (plain_program q.now) (map plain_decl objects.old.items)) }
{
    let instance = has_int_io(objects);
    let last = last_task(x.numbers.numbers());
    let mut more = Vec::new(alloc);
    put_main(
        alloc,
        &x.tables.added,
        q.name.span,
        instance,
        last,
        &mut more,
    )?;
    put_behind_own(&q.names, &mut more, objects)
}
