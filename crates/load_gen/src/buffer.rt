// The task B, which takes numbers and writes their sum.

ghost use Rattle.std.specs.Prelude.{◌≡◌, ◌∷◌, ◌++◌, [], map, IfOk, OnOk};
ghost use Rattle.ada_tree.specs.PlainStmt.{plain_accept, plain_alt, plain_part, plain_stmt, accepting, present};
ghost use Rattle.ada_tree.specs.PlainDecl.{plain_decl, plain_entry};
ghost use Rattle.load_gen.specs.LoadTree.{add, buffer_body, buffer_task, ending, one, put_entry, put_head, serve_all, serving, sum_image, sum_object};

use crate::words::{BUFFER, GIVEN, NOWHERE, SUM, formals, one_word, word};
use ada_stmt_copy::building::{
    accept_alternative_of, accepting_of, body_of, loop_of, put_line_of, terminate_alternative_of,
    wait_of,
};
use ada_stmt_copy::expressions::put;
use ada_tree::{
    Accept, Alt, BinaryOp, Decl, EntryDecl, Init, Memory, NameId, Part, Shape, Stmt, Subind,
};
use ada_tree_copy::building::{entry_of, object_of, task_body_of, task_of, unit_of};
use std::alloc::Global;
use tree_rewriting::making::{
    assignment, attribute_of, binary_of, integer_expr, keep_alts, keep_decls, keep_entries,
    name_expr, one_stmt, push_alt, push_decl, push_entry, some_stmts,
};

// `entry PUT(X : in INTEGER);`
fn put_entry(alloc: Global) -> Result<EntryDecl, Memory>
    ensures { IfOk result (λ made. plain_entry made ≡ put_entry) }
{
    entry_of(word(NameId::PUT), Ok(None), formals(alloc), NOWHERE)
}

/// `task B is .. end B;`
pub(crate) fn buffer_task(alloc: Global) -> Result<Decl, Memory>
    ensures { IfOk result (λ made. plain_decl made ≡ buffer_task) }
{
    let mut entries = Vec::new(alloc);
    let done = push_entry(&mut entries, put_entry(alloc));
    let entries = keep_entries(entries, done);
    task_of(
        unit_of(word(BUFFER), false, entries, Ok(Vec::new(alloc))),
        NOWHERE,
    )
}

// `S : INTEGER := 0;`
fn sum_object(alloc: Global) -> Result<Decl, Memory>
    ensures { IfOk result (λ made. plain_decl made ≡ sum_object) }
{
    let integer = Subind {
        mark: word(NameId::INTEGER),
        bounds: None,
    };
    let first = Init::One(integer_expr(0, NOWHERE));
    object_of(
        one_word(alloc, SUM),
        false,
        Ok(Shape::Plain(integer)),
        Ok(Some(first)),
        NOWHERE,
    )
}

// `S := S + X;`
fn add(alloc: Global) -> Result<Stmt, Memory>
    ensures { IfOk result (λ made. plain_stmt made ≡ add) }
{
    let sum = Ok(name_expr(SUM, NOWHERE));
    let given = Ok(name_expr(GIVEN, NOWHERE));
    let value = binary_of(alloc, BinaryOp::Plus, sum, given, NOWHERE);
    assignment(word(SUM), value, NOWHERE)
}

// `accept PUT(X : in INTEGER) do S := S + X; end PUT;`
fn put_accept(alloc: Global) -> Result<Accept, Memory>
    ensures { IfOk result (λ made. plain_accept made ≡ accepting put_head (present (one add))) }
{
    let stmts = some_stmts(one_stmt(alloc, add(alloc)));
    accepting_of(word(NameId::PUT), Ok(None), formals(alloc), stmts, NOWHERE)
}

// `INTEGER'IMAGE(S)`
fn image_parts(alloc: Global) -> Result<Vec<Part>, Memory>
    ensures { IfOk result (λ made. map plain_part made.items ≡ sum_image ∷ []) }
{
    let (mark, image) = (word(NameId::INTEGER), word(NameId::IMAGE));
    let part = match attribute_of(alloc, mark, image, Ok(name_expr(SUM, NOWHERE)), NOWHERE) {
        Ok(value) => Ok(Part::Value(value)),
        Err(e) => Err(e),
    };
    let mut parts = Vec::new(alloc);
    put(&mut parts, part)?;
    Ok(parts)
}

// `accept PUT .. end PUT; PUT_LINE(INTEGER'IMAGE(S));`
fn serving(alloc: Global) -> Result<Alt, Memory>
    ensures { IfOk result (λ made. plain_alt made ≡ serving) }
{
    let written = put_line_of(image_parts(alloc), NOWHERE);
    accept_alternative_of(
        Ok(None),
        put_accept(alloc),
        one_stmt(alloc, written),
        NOWHERE,
    )
}

// Both alternatives go behind others.
fn put_alternatives(alloc: Global, alts: &mut Vec<Alt>) -> Result<(), Memory>
    ensures { OnOk result (map plain_alt alts.new.items ≡ map plain_alt alts.old.items ++ (serving ∷ ending ∷ [])) }
{
    push_alt(alts, serving(alloc))?;
    push_alt(alts, terminate_alternative_of(Ok(None), NOWHERE))
}

// `loop select .. end select; end loop;`
fn serve_all(alloc: Global) -> Result<Stmt, Memory>
    ensures { IfOk result (λ made. plain_stmt made ≡ serve_all) }
{
    let mut alts = Vec::new(alloc);
    let done = put_alternatives(alloc, &mut alts);
    let wait = wait_of(keep_alts(alts, done), Ok(None), NOWHERE);
    loop_of(None, Ok(None), one_stmt(alloc, wait), NOWHERE)
}

/// `task body B is .. end B;`
pub(crate) fn buffer_body(alloc: Global) -> Result<Decl, Memory>
    ensures { IfOk result (λ made. plain_decl made ≡ buffer_body) }
{
    let mut objects = Vec::new(alloc);
    let done = push_decl(&mut objects, sum_object(alloc));
    let its = body_of(one_stmt(alloc, serve_all(alloc)), Ok(Vec::new(alloc)));
    task_body_of(word(BUFFER), keep_decls(objects, done), its, NOWHERE)
}
