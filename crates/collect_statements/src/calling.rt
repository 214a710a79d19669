// What is called, and the call with the task's own number.

ghost use Rattle.std.specs.Prelude.{◌≡◌, ◌∷◌, ◌++◌, [], true, false, Some, IfOk, OnOk, map, option_map, unwrap_or};
ghost use Rattle.ada_tree.specs.PlainExpr.{plain_expr};
ghost use Rattle.ada_tree.specs.PlainStmt.{plain_args, plain_call, plain_stmt};
ghost use Rattle.task_model.specs.Setting.{entry_of, is_family, lists_of};
ghost use Rattle.collect_model.specs.Teller.{task_of};
ghost use Rattle.collect_model.specs.Noting.{number};
ghost use Rattle.collect_model.specs.Calling.{entry_called, member_called, call_note, args_with, call_telling};
ghost use Rattle.replay_asking.specs.Looked.{number_by};
ghost use Rattle.collect_statements.specs.Looked.{mark_of, teller_of};

use crate::Reporter;
use crate::noting::note;
use ada_stmt_copy::expressions::{ExprCopy, both, copy_exprs};
use ada_tree::{Args, Call, Expr, Memory, NameId, Span, Stmt};
use replay_asking::word;
use std::alloc::Global;
use task_links::TaskNames;
use tree_rewriting::making::{
    args_of, attribute_of, integer_expr, keep_exprs, push_expr, some_exprs,
};

// ---- what is called

/// The task of a name; 0 where there is none.
pub fn task_of(numbers: &TaskNames, name: NameId) -> u32
    ensures { result ≡ task_of numbers.now name }
{
    match numbers.task_named(name) {
        Some(task) => task,
        None => 0,
    }
}

/// The entry of that name that a task has; 0 where it has none.
pub fn entry_of(numbers: &TaskNames, task: u32, name: NameId) -> u32
    ensures { result ≡ entry_of numbers.now task name }
{
    match numbers.entry_named(task, name) {
        Some(entry) => entry,
        None => 0,
    }
}

// The entry that is called.
fn entry_called(x: &Reporter, call: &Call) -> u32
    ensures { result ≡ entry_called (teller_of x.now) (plain_call call.now) }
{
    let task = task_of(x.numbers, call.task.name.name);
    entry_of(x.numbers, task, call.entry.name)
}

// Whether an entry is a family.
fn is_family(numbers: &TaskNames, entry: u32) -> bool
    ensures { result ≡ is_family numbers.now entry }
{
    match numbers.numbers().entry(entry) {
        Some(info) => info.family,
        None => false,
    }
}

// The index of a call of an entry.
fn index_called<'a>(x: &Reporter, call: &'a Call) -> Option<&'a Expr>
    ensures { option_map (λ i. plain_expr i.now) result ≡ (lists_of (teller_of x.now).numbers (entry_called (teller_of x.now) (plain_call call.now)) (plain_call call.now).args).index }
{
    if !is_family(x.numbers, entry_called(x, call)) {
        return None;
    }
    match &call.args {
        Some(args) => match args.first.as_slice() {
            [first, ..] => Some(first),
            [] => None,
        },
        None => None,
    }
}

// ---- members

// The type whose positions stand for the indices of an entry.
fn mark_of(x: &Reporter, entry: u32) -> Option<NameId>
    ensures { result ≡ mark_of x.now entry }
{
    if entry == 0 {
        return None;
    }
    match x.tables.marks.get(entry as usize - 1) {
        Some(mark) => *mark,
        None => None,
    }
}

// An index as a number.
fn number_by(alloc: Global, mark: Option<NameId>, index: &Expr, s: Span) -> Result<Expr, Memory>
    ensures { IfOk result (λ made. plain_expr made ≡ number_by mark s (plain_expr index.now)) }
{
    match mark {
        None => index.copy(alloc),
        Some(name) => attribute_of(
            alloc,
            word(name, s),
            word(NameId::POS, s),
            index.copy(alloc),
            s,
        ),
    }
}

/// The member of an entry as a number.
pub fn member_number(
    alloc: Global,
    x: &Reporter,
    entry: u32,
    index: Option<&Expr>,
    s: Span,
) -> Result<Expr, Memory>
    ensures { IfOk result (λ made. plain_expr made ≡ (teller_of x.now).member entry s (option_map (λ i. plain_expr i.now) index.entry)) }
{
    match index {
        None => Ok(integer_expr(0, s)),
        Some(index) => number_by(alloc, mark_of(x, entry), index, s),
    }
}

// The member that is called.
fn member_called(alloc: Global, x: &Reporter, call: &Call, s: Span) -> Result<Expr, Memory>
    ensures { IfOk result (λ made. plain_expr made ≡ member_called (teller_of x.now) s (plain_call call.now)) }
{
    member_number(alloc, x, entry_called(x, call), index_called(x, call), s)
}

/// A note of the task about the member that it calls, and its owner.
pub fn call_note(
    alloc: Global,
    x: &Reporter,
    kind: u32,
    call: &Call,
    s: Span,
) -> Result<Stmt, Memory>
    ensures { IfOk result (λ made. plain_stmt made ≡ call_note (teller_of x.now) s kind (plain_call call.now)) }
{
    let entry = entry_called(x, call);
    let own = Ok(integer_expr(x.task, s));
    let member = member_called(alloc, x, call, s);
    note(
        alloc,
        x,
        kind,
        own,
        entry,
        member,
        x.numbers.numbers().owner(entry),
        s,
    )
}

// ---- the call

// Copies of expressions go behind others.
fn put_copies(alloc: Global, exprs: &[Expr], out: &mut Vec<Expr>) -> Result<(), Memory>
    ensures { OnOk result (map plain_expr out.new.items ≡ map plain_expr out.old.items ++ map plain_expr exprs.now) }
{
    for expr in exprs {
        push_expr(out, expr.copy(alloc))?;
    }
    Ok(())
}

// A number, and copies of expressions behind it, go behind others.
fn put_actuals(
    alloc: Global,
    own: u32,
    exprs: &[Expr],
    s: Span,
    out: &mut Vec<Expr>,
) -> Result<(), Memory>
    ensures { OnOk result (map plain_expr out.new.items ≡ map plain_expr out.old.items ++ number s own ∷ map plain_expr exprs.now) }
{
    push_expr(out, Ok(integer_expr(own, s)))?;
    put_copies(alloc, exprs, out)
}

// A number, and copies of expressions behind it.
fn actuals_with(alloc: Global, own: u32, exprs: &[Expr], s: Span) -> Result<Vec<Expr>, Memory>
    ensures { IfOk result (λ made. map plain_expr made.items ≡ number s own ∷ map plain_expr exprs.now) }
{
    let mut made = Vec::new(alloc);
    let done = put_actuals(alloc, own, exprs, s, &mut made);
    keep_exprs(made, done)
}

// The second list of a call, or an empty one.
fn second_of(args: &Args) -> &[Expr]
    ensures { map plain_expr result.now ≡ unwrap_or (plain_args args.now).second [] }
{
    match &args.second {
        Some(list) => list.as_slice(),
        None => &[],
    }
}

// A copy of the second list of a call.
fn copy_second(alloc: Global, args: &Args) -> Result<Option<Vec<Expr>>, Memory>
    ensures { IfOk result (λ made. option_map (λ v. map plain_expr v.items) made ≡ (plain_args args.now).second) }
{
    match &args.second {
        Some(list) => some_exprs(copy_exprs(alloc, list)),
        None => Ok(None),
    }
}

// The lists of a call of a family with one more actual.
fn family_args(alloc: Global, own: u32, args: &Option<Args>, s: Span) -> Result<Args, Memory>
    ensures { IfOk result (λ made. plain_args made ≡ args_with true (number s own) (option_map plain_args args.now)) }
{
    match args {
        None => args_of(
            Ok(Vec::new(alloc)),
            some_exprs(actuals_with(alloc, own, &[], s)),
        ),
        Some(args) => args_of(
            copy_exprs(alloc, &args.first),
            some_exprs(actuals_with(alloc, own, second_of(args), s)),
        ),
    }
}

// The lists of a call of a plain entry with one more actual.
fn plain_args(alloc: Global, own: u32, args: &Option<Args>, s: Span) -> Result<Args, Memory>
    ensures { IfOk result (λ made. plain_args made ≡ args_with false (number s own) (option_map plain_args args.now)) }
{
    match args {
        None => args_of(actuals_with(alloc, own, &[], s), Ok(None)),
        Some(args) => args_of(
            actuals_with(alloc, own, &args.first, s),
            copy_second(alloc, args),
        ),
    }
}

// The lists of a call with the task's number in front of the actuals.
fn args_with(alloc: Global, x: &Reporter, call: &Call, s: Span) -> Result<Args, Memory>
    ensures { IfOk result (λ made. Some (plain_args made) ≡ (call_telling (teller_of x.now) s (plain_call call.now)).args) }
{
    if is_family(x.numbers, entry_called(x, call)) {
        family_args(alloc, x.task, &call.args, s)
    } else {
        plain_args(alloc, x.task, &call.args, s)
    }
}

/// The call with the task's number as its first actual.
pub fn call_telling(alloc: Global, x: &Reporter, call: &Call, s: Span) -> Result<Call, Memory>
    ensures { IfOk result (λ made. plain_call made ≡ call_telling (teller_of x.now) s (plain_call call.now)) }
{
    match both(call.task.copy(alloc), args_with(alloc, x, call, s)) {
        Ok((task, args)) => Ok(Call {
            task,
            entry: call.entry,
            args: Some(args),
        }),
        Err(e) => Err(e),
    }
}
