// What a task tests of its permit.

ghost use Rattle.std.specs.Prelude.{◌≡◌, IfOk, option_map};
ghost use Rattle.ada_tree.specs.PlainExpr.{plain_expr};
ghost use Rattle.ada_stmt_copy.specs.expressions.Parts.{OkWith};
ghost use Rattle.replay_asking.specs.Spoken.{both, is_value, is_kind, is_for, is_at};
ghost use Rattle.replay_asking.specs.Looked.{voice_of, mark_of, number_by};

use crate::Speaker;
use crate::saying::word;
use ada_stmt_copy::expressions::ExprCopy;
use ada_tree::{BinaryOp, Expr, Memory, NameId, Span};
use std::alloc::Global;
use tree_rewriting::making::{attribute_of, binary_of, integer_expr, name_expr};

/// Two tests, of which both are to hold.
pub fn both_of(
    alloc: Global,
    first: Result<Expr, Memory>,
    second: Result<Expr, Memory>,
    s: Span,
) -> Result<Expr, Memory>
    ensures { IfOk result (λ made. OkWith first (λ a. OkWith second (λ b. plain_expr made ≡ both s (plain_expr a) (plain_expr b)))) }
{
    binary_of(alloc, BinaryOp::And, first, second, s)
}

// A variable of the permit has this value.
fn is_value(
    alloc: Global,
    name: NameId,
    value: Result<Expr, Memory>,
    s: Span,
) -> Result<Expr, Memory>
    ensures { IfOk result (λ made. OkWith value (λ v. plain_expr made ≡ is_value s name (plain_expr v))) }
{
    binary_of(alloc, BinaryOp::Equal, Ok(name_expr(name, s)), value, s)
}

/// The permit is of this kind.
pub fn is_kind(alloc: Global, x: &Speaker, k: u32, s: Span) -> Result<Expr, Memory>
    ensures { IfOk result (λ made. plain_expr made ≡ is_kind (voice_of x.now) s k) }
{
    is_value(alloc, x.tables.added.kind, Ok(integer_expr(k, s)), s)
}

/// The permit is of this kind, and has this argument.
pub fn is_for(alloc: Global, x: &Speaker, k: u32, a: u32, s: Span) -> Result<Expr, Memory>
    ensures { IfOk result (λ made. plain_expr made ≡ is_for (voice_of x.now) s k a) }
{
    let argument = is_value(alloc, x.tables.added.argument, Ok(integer_expr(a, s)), s);
    both_of(alloc, is_kind(alloc, x, k, s), argument, s)
}

// The type whose positions stand for the indices of an entry.
fn mark_of(x: &Speaker, e: u32) -> Option<NameId>
    ensures { result ≡ mark_of x.now e }
{
    if e == 0 {
        return None;
    }
    match x.tables.marks.get(e as usize - 1) {
        Some(mark) => *mark,
        None => None,
    }
}

// An index as a number.
fn number_by(alloc: Global, mark: Option<NameId>, index: &Expr, s: Span) -> Result<Expr, Memory>
    ensures { IfOk result (λ made. plain_expr made ≡ number_by mark s (plain_expr index.now)) }
{
    match mark {
        None => index.copy(alloc),
        Some(name) => attribute_of(
            alloc,
            word(name, s),
            word(NameId::POS, s),
            index.copy(alloc),
            s,
        ),
    }
}

// The member of an entry as a number.
fn member_number(
    alloc: Global,
    x: &Speaker,
    e: u32,
    index: Option<&Expr>,
    s: Span,
) -> Result<Expr, Memory>
    ensures { IfOk result (λ made. plain_expr made ≡ (voice_of x.now).member e s (option_map (λ i. plain_expr i.now) index.entry)) }
{
    match index {
        None => Ok(integer_expr(0, s)),
        Some(index) => number_by(alloc, mark_of(x, e), index, s),
    }
}

/// The permit is for an event of this kind, at this member of the entry of this number.
pub fn is_at(
    alloc: Global,
    x: &Speaker,
    k: u32,
    e: u32,
    index: Option<&Expr>,
    s: Span,
) -> Result<Expr, Memory>
    ensures { IfOk result (λ made. plain_expr made ≡ is_at (voice_of x.now) s k e (option_map (λ i. plain_expr i.now) index.entry)) }
{
    let member = member_number(alloc, x, e, index, s);
    let member = is_value(alloc, x.tables.added.index, member, s);
    both_of(alloc, is_for(alloc, x, k, e, s), member, s)
}
