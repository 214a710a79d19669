// The tables of the controller, as declarations of constant arrays.

ghost use Rattle.std.specs.Prelude.{◌≡◌, ◌++◌, ◌∷◌, [], ◌<◌, map, length, true, Some, IfOk, OnOk};
ghost use Rattle.ada_tree.specs.PlainExpr.{plain_expr, plain_drange};
ghost use Rattle.ada_tree.specs.PlainDecl.{plain_decl, plain_init, plain_shape};
ghost use Rattle.normal_model.specs.Members.{integer_literal};
ghost use Rattle.normal_model.specs.Ranges.{word_at};
ghost use Rattle.replay_model.specs.tables.Columns.{says, table_name};
ghost use Rattle.replay_model.specs.tables.Tables.{up_to, array_of, table_value, table_declared, tables_over, tables_for};

use crate::columns::said;
use ada_stmt_copy::expressions::{put, there};
use ada_tree::{Bounds, Decl, Drange, Expr, Init, Memory, NameId, Shape, Span, Subind, Word};
use ada_tree_copy::building::{list_of, object_of, others_of};
use control_script::Op;
use replay_model::tables::{Column, ControlNames};
use std::alloc::Global;
use tree_rewriting::making::{integer_expr, keep_decls, keep_exprs, push_decl, push_expr};

// A name at a place.
pub(crate) fn word(name: NameId, span: Span) -> Word
    ensures { result ≡ word_at span name }
{
    Word { name, span }
}

// `1 .. last`
pub(crate) fn up_to(last: u32, s: Span) -> Drange
    ensures { plain_drange result ≡ up_to s last }
{
    Drange::Given(Bounds {
        first: integer_expr(1, s),
        last: integer_expr(last, s),
    })
}

// `array (1 .. last) of INTEGER`
fn array_of(last: u32, s: Span) -> Shape
    ensures { plain_shape result ≡ array_of s last }
{
    Shape::ConstrainedArray {
        index: up_to(last, s),
        part: Subind {
            mark: word(NameId::INTEGER, s),
            bounds: None,
        },
    }
}

// The name of the table.
pub(crate) fn table_name(n: &ControlNames, column: Column) -> NameId
    ensures { result ≡ table_name n.now column }
{
    match column {
        Column::Operation => n.operations,
        Column::Task => n.tasks,
        Column::Kind => n.kinds,
        Column::Argument => n.arguments,
        Column::Index => n.indices,
    }
}

// What the table says of operations, one after the other, goes behind others.
fn put_parts(
    alloc: Global,
    column: Column,
    made: &[Op],
    s: Span,
    out: &mut Vec<Expr>,
) -> Result<(), Memory>
    ensures { OnOk result (map plain_expr out.new.items ≡ map plain_expr out.old.items ++ map (λ op. integer_literal s (says column op)) made.now) }
{
    for op in made {
        push_expr(out, said(alloc, column, *op, s))?;
    }
    Ok(())
}

// What the table says of operations.
fn parts(alloc: Global, column: Column, made: &[Op], s: Span) -> Result<Vec<Expr>, Memory>
    ensures { IfOk result (λ es. map plain_expr es.items ≡ map (λ op. integer_literal s (says column op)) made.now) }
{
    let mut out = Vec::new(alloc);
    let done = put_parts(alloc, column, made, s, &mut out);
    keep_exprs(out, done)
}

// The value of a table; that of one operation says `others`.
fn table_value(alloc: Global, column: Column, made: &[Op], s: Span) -> Result<Init, Memory>
    ensures { IfOk result (λ value. plain_init value ≡ table_value s (map (says column) made.now)) }
{
    if made.len() == 1 {
        return others_of(said(alloc, column, made[0], s), s);
    }
    list_of(parts(alloc, column, made, s), s)
}

// A list of one name.
fn one_word(alloc: Global, word: Word) -> Result<Vec<Word>, Memory>
    ensures { IfOk result (λ words. words.items ≡ word ∷ []) }
{
    let mut words = Vec::new(alloc);
    put(&mut words, Ok(word))?;
    Ok(words)
}

// The declaration of a table of so many operations.
fn table_declared(
    alloc: Global,
    n: &ControlNames,
    column: Column,
    made: &[Op],
    count: u32,
    s: Span,
) -> Result<Decl, Memory>
    requires { count ≡ length made.now }
    ensures { IfOk result (λ decl. plain_decl decl ≡ table_declared n.now s column made.now) }
{
    let name = one_word(alloc, word(table_name(n, column), s));
    let value = there(table_value(alloc, column, made, s));
    object_of(name, true, Ok(array_of(count, s)), value, s)
}

// The tables of these columns go behind other declarations.
fn put_columns(
    alloc: Global,
    n: &ControlNames,
    columns: &[Column],
    made: &[Op],
    count: u32,
    s: Span,
    out: &mut Vec<Decl>,
) -> Result<(), Memory>
    requires { count ≡ length made.now }
    ensures { OnOk result (map plain_decl out.new.items ≡ map plain_decl out.old.items ++ map (λ column. table_declared n.now s column made.now) columns.now) }
{
    for column in columns {
        push_decl(out, table_declared(alloc, n, *column, made, count, s))?;
    }
    Ok(())
}

// The tables, in the order in which they are declared.
const COLUMNS: [Column; 5] = [
    Column::Operation,
    Column::Task,
    Column::Kind,
    Column::Argument,
    Column::Index,
];

// The five tables go behind other declarations.
fn put_tables(
    alloc: Global,
    n: &ControlNames,
    made: &[Op],
    count: u32,
    s: Span,
    out: &mut Vec<Decl>,
) -> Result<(), Memory>
    requires { count ≡ length made.now }
    ensures { OnOk result (map plain_decl out.new.items ≡ map plain_decl out.old.items ++ tables_over n.now s made.now) }
{
    put_columns(alloc, n, &COLUMNS, made, count, s, out)
}

// The tables of so many operations; of none there are none.
pub(crate) fn tables(
    alloc: Global,
    n: &ControlNames,
    made: &[Op],
    count: u32,
    s: Span,
) -> Result<Vec<Decl>, Memory>
    requires { count ≡ length made.now }
    ensures { IfOk result (λ decls. map plain_decl decls.items ≡ tables_for n.now s made.now) }
{
    let mut out = Vec::new(alloc);
    if made.is_empty() {
        return Ok(out);
    }
    let done = put_tables(alloc, n, made, count, s, &mut out);
    keep_decls(out, done)
}
