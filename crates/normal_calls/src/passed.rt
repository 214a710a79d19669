// The lists of a new call, which are variables alone.

ghost use Rattle.std.specs.Prelude.{◌≡◌, ◌++◌, true, false, IfOk, OnOk, map, option_map};
ghost use Rattle.ada_tree.specs.PlainExpr.{plain_expr};
ghost use Rattle.ada_tree.specs.PlainStmt.{plain_args, plain_call};
ghost use Rattle.task_model.specs.Setting.{is_family};
ghost use Rattle.normal_model.specs.Calls.{actuals_passed, args_passed, call_to, entry_called, lists_passed, slots_called};
ghost use Rattle.normal_calls.specs.inner.Passing.{variables_from};

use crate::called::count_with_formal;
use crate::numbers::{actual_number, index_number, number_at};
use ada_stmt_copy::expressions::copy_exprs;
use ada_tree::{Args, Call, Expr, Memory, Span, Word};
use normal_lookups::pieces::{Meanings, variable_expr};
use std::alloc::Global;
use tree_rewriting::making::{
    args_of, calling_of, keep_exprs, one_expr, push_expr, some_args, some_exprs,
};

// So many variables, from a number on, go behind other expressions.
fn push_variables<M: Meanings>(
    m: &M,
    number: u32,
    count: usize,
    span: Span,
    out: &mut Vec<Expr>,
) -> Result<(), Memory>
    requires { M.fits m.now }
    ensures { OnOk result (map plain_expr out.new.items ≡ map plain_expr out.old.items ++ variables_from (M.setting m.now) span number count) }
{
    for place in 0..count {
        let own = number_at(number, place)?;
        push_expr(out, variable_expr(m, own, span))?;
    }
    Ok(())
}

// The variables of so many actuals as have a formal, from the number of the first on.
fn variables_passed<M: Meanings>(
    alloc: Global,
    m: &M,
    number: u32,
    call: &Call,
    actuals: &[Expr],
    span: Span,
) -> Result<Vec<Expr>, Memory>
    requires { M.fits m.now }
    ensures { IfOk result (λ made. map plain_expr made.items ≡ actuals_passed (M.setting m.now) span (slots_called (M.setting m.now) (plain_call call.now)) (map plain_expr actuals.now) number) }
{
    let count = count_with_formal(m, call, actuals);
    let mut made = Vec::new(alloc);
    let done = push_variables(m, number, count, span, &mut made);
    keep_exprs(made, done)
}

// The variables in the second list of a family's call.
fn second_passed<M: Meanings>(
    alloc: Global,
    m: &M,
    number: u32,
    call: &Call,
    second: &Option<Vec<Expr>>,
    span: Span,
) -> Result<Option<Vec<Expr>>, Memory>
    requires { M.fits m.now }
    ensures { IfOk result (λ made. option_map (λ v. map plain_expr v.items) made ≡ option_map (λ v. actuals_passed (M.setting m.now) span (slots_called (M.setting m.now) (plain_call call.now)) (map plain_expr v.items) number) second.now) }
{
    match second {
        Some(actuals) => some_exprs(variables_passed(alloc, m, number, call, actuals, span)),
        None => Ok(None),
    }
}

// A second list as it is.
fn second_left(alloc: Global, second: &Option<Vec<Expr>>) -> Result<Option<Vec<Expr>>, Memory>
    ensures { IfOk result (λ made. option_map (λ v. map plain_expr v.items) made ≡ option_map (λ v. map plain_expr v.items) second.now) }
{
    match second {
        Some(actuals) => some_exprs(copy_exprs(alloc, actuals)),
        None => Ok(None),
    }
}

// The lists of a call of a family.
fn family_lists<M: Meanings>(
    alloc: Global,
    m: &M,
    number: u32,
    call: &Call,
    args: &Args,
    span: Span,
) -> Result<Args, Memory>
    requires { M.fits m.now }
    ensures { IfOk result (λ made. plain_args made ≡ lists_passed true (M.setting m.now) span (plain_call call.now) number (plain_args args.now)) }
{
    let index = index_number(m, number, call, span)?;
    let first = actual_number(m, number, call, span)?;
    args_of(
        one_expr(alloc, variable_expr(m, index, span)),
        second_passed(alloc, m, first, call, &args.second, span),
    )
}

// The lists of a call of a plain entry.
fn plain_lists<M: Meanings>(
    alloc: Global,
    m: &M,
    number: u32,
    call: &Call,
    args: &Args,
    span: Span,
) -> Result<Args, Memory>
    requires { M.fits m.now }
    ensures { IfOk result (λ made. plain_args made ≡ lists_passed false (M.setting m.now) span (plain_call call.now) number (plain_args args.now)) }
{
    let first = actual_number(m, number, call, span)?;
    args_of(
        variables_passed(alloc, m, first, call, &args.first, span),
        second_left(alloc, &args.second),
    )
}

// The lists of a call.
fn lists_passed<M: Meanings>(
    alloc: Global,
    m: &M,
    number: u32,
    call: &Call,
    args: &Args,
    span: Span,
) -> Result<Args, Memory>
    requires { M.fits m.now }
    ensures { IfOk result (λ made. plain_args made ≡ lists_passed (is_family (M.setting m.now).numbers (entry_called (M.setting m.now) (plain_call call.now))) (M.setting m.now) span (plain_call call.now) number (plain_args args.now)) }
{
    if m.is_family(m.entry_called(call)) {
        family_lists(alloc, m, number, call, args, span)
    } else {
        plain_lists(alloc, m, number, call, args, span)
    }
}

// The lists of a call, where it has some.
fn args_passed<M: Meanings>(
    alloc: Global,
    m: &M,
    number: u32,
    call: &Call,
    span: Span,
) -> Result<Option<Args>, Memory>
    requires { M.fits m.now }
    ensures { IfOk result (λ made. option_map plain_args made ≡ args_passed (M.setting m.now) span (plain_call call.now) number (plain_call call.now).args) }
{
    match &call.args {
        Some(args) => some_args(lists_passed(alloc, m, number, call, args, span)),
        None => Ok(None),
    }
}

/// The call of the task of a name, with variables alone.
pub(crate) fn call_to<M: Meanings>(
    alloc: Global,
    m: &M,
    number: u32,
    call: &Call,
    name: Word,
    span: Span,
) -> Result<Call, Memory>
    requires { M.fits m.now }
    ensures { IfOk result (λ made. plain_call made ≡ call_to (M.setting m.now) span (plain_call call.now) number name) }
{
    calling_of(name, call.entry, args_passed(alloc, m, number, call, span))
}
