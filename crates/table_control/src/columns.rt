// What the tables say of operations, as literals.

ghost use Rattle.std.specs.Prelude.{◌≡◌, ◌≤ℤ◌, pos, negsuc, IfOk};
ghost use Rattle.ada_tree.specs.PlainExpr.{plain_expr};
ghost use Rattle.normal_model.specs.Members.{integer_literal};
ghost use Rattle.replay_model.specs.tables.Columns.{says};

use ada_tree::{Expr, Memory, NameId, Span, UnaryOp, Word};
use control_script::Op;
use replay_model::tables::Column;
use std::alloc::Global;
use tree_rewriting::making::{attribute_expr, integer_expr, unary_of};

/// The number of the operation that hands out a permit.
pub(crate) const PERMIT: u32 = 1;

/// The number of the one that hears that a permit is used.
pub(crate) const HEARING: u32 = 2;

// The number of the one that waits until a task is closed.
const JOINING: u32 = 3;

// What the table says of an operation.
pub(crate) fn says(column: Column, op: Op) -> i64
    ensures value { result ≡ says column op }
    ensures low { negsuc 2147483647 ≤ℤ result }
    ensures high { result ≤ℤ pos 4294967295 }
{
    match (column, op) {
        (Column::Operation, Op::Go { .. }) => PERMIT as i64,
        (Column::Operation, Op::Done { .. }) => HEARING as i64,
        (Column::Operation, Op::Join { .. } | Op::Hold) => JOINING as i64,
        (Column::Task, Op::Go { task, .. } | Op::Done { task } | Op::Join { task }) => task as i64,
        (Column::Kind, Op::Go { kind, .. }) => kind as i64,
        (Column::Argument, Op::Go { arg, .. }) => arg as i64,
        (Column::Index, Op::Go { index, .. }) => index as i64,
        _ => 0,
    }
}

// The least number of INTEGER, which has no literal of its own.
const LEAST: i64 = -2147483648;

// The literal of a number: `-n` of a negative one, and INTEGER'FIRST of the one that has none.
fn literal(alloc: Global, value: i64, s: Span) -> Result<Expr, Memory>
    requires low { negsuc 2147483647 ≤ℤ value }
    requires high { value ≤ℤ pos 4294967295 }
    ensures { IfOk result (λ made. plain_expr made ≡ integer_literal s value) }
{
    if value >= 0 {
        Ok(integer_expr(value as u32, s))
    } else if value == LEAST {
        Ok(attribute_expr(
            Word {
                name: NameId::INTEGER,
                span: s,
            },
            Word {
                name: NameId::FIRST,
                span: s,
            },
            s,
        ))
    } else {
        unary_of(
            alloc,
            UnaryOp::Minus,
            Ok(integer_expr((-value) as u32, s)),
            s,
        )
    }
}

// What the table says of an operation, as a literal.
pub(crate) fn said(alloc: Global, column: Column, op: Op, s: Span) -> Result<Expr, Memory>
    ensures { IfOk result (λ made. plain_expr made ≡ integer_literal s (says column op)) }
{
    literal(alloc, says(column, op), s)
}
