// The statements of one turn of the loop.

ghost use Rattle.std.specs.Prelude.{◌≡◌, ◌++◌, ◌∷◌, [], ◌<◌, ◌^◌, ◌+◌, IfOk, OnOk, map, option_map, length, drop};
ghost use Rattle.ada_tree.specs.PlainExpr.{plain_expr};
ghost use Rattle.ada_tree.specs.PlainStmt.{plain_formal, plain_handler, plain_stmt, plain_case_arm, seen_maybe, handlers_of};
ghost use Rattle.ada_stmt_copy.specs.expressions.Parts.{OkWith};
ghost use Rattle.normal_model.specs.Ranges.{word_at};
ghost use Rattle.normal_model.specs.Making.{one};
ghost use Rattle.replay_model.specs.tables.Turns.{line_of, accept_by, permit_formals, part_given, given, going, hearing, join_handlers, joined, value_arm, join_arms, joining, turn_arms, turn};

use crate::columns::{HEARING, PERMIT};
use crate::tables::{table_name, word};
use ada_stmt_copy::building::{
    accept_of, accepting_of, block_of, body_of, call_of, case_others_of,
};
use ada_tree::{CaseArm, Expr, Formal, Handler, Memory, NameId, ParMode, Span, Stmt, Word};
use replay_model::tables::{Column, ControlNames};
use std::alloc::Global;
use syn_event::TaskInfo;
use tree_rewriting::making::{
    assignment, calling_of, component_of, handler_one, integer_expr, keep_case_arms, keep_stmts,
    name_expr, null_stmt, one_formal, one_handler, one_stmt, push_case_arm, push_stmt, some_expr,
    some_stmts, value_arm,
};

// The line of a table in this turn.
fn line_of(alloc: Global, n: &ControlNames, column: Column, s: Span) -> Result<Expr, Memory>
    ensures { IfOk result (λ made. plain_expr made ≡ line_of n.now s column) }
{
    let counter = Ok(name_expr(n.counter, s));
    component_of(alloc, word(table_name(n, column), s), counter, s)
}

// An accept statement of an entry by its name.
pub(crate) fn accept_by(
    name: NameId,
    index: Result<Option<Expr>, Memory>,
    formals: Result<Vec<Formal>, Memory>,
    stmts: Result<Option<Vec<Stmt>>, Memory>,
    s: Span,
) -> Result<Stmt, Memory>
    ensures { IfOk result (λ made. OkWith index (λ i. OkWith formals (λ f. OkWith stmts (λ k. plain_stmt made ≡ accept_by s name (option_map plain_expr i) (map plain_formal f.items) (seen_maybe k))))) }
{
    accept_of(accepting_of(word(name, s), index, formals, stmts, s), s)
}

// The words of the formals of GO.
fn permit_words(alloc: Global, n: &ControlNames, s: Span) -> Result<Vec<Word>, Memory>
    ensures { IfOk result (λ made. made.items ≡ word_at s n.now.kind ∷ word_at s n.now.argument ∷ word_at s n.now.index ∷ []) }
{
    let mut words = Vec::new(alloc);
    words.push(word(n.kind, s))?;
    words.push(word(n.argument, s))?;
    words.push(word(n.index, s))?;
    Ok(words)
}

// The formals of GO.
fn permit_formals(alloc: Global, n: &ControlNames, s: Span) -> Result<Vec<Formal>, Memory>
    ensures { IfOk result (λ made. map plain_formal made.items ≡ permit_formals n.now s) }
{
    let formal = match permit_words(alloc, n, s) {
        Ok(names) => Ok(Formal {
            names,
            mode: ParMode::Give,
            mark: word(NameId::INTEGER, s),
        }),
        Err(e) => Err(e),
    };
    one_formal(alloc, formal)
}

// A part of the permit of this line is handed out.
fn part_given(
    alloc: Global,
    n: &ControlNames,
    name: NameId,
    column: Column,
    s: Span,
) -> Result<Stmt, Memory>
    ensures { IfOk result (λ made. plain_stmt made ≡ part_given s name (line_of n.now s column)) }
{
    assignment(word(name, s), line_of(alloc, n, column, s), s)
}

// The parts of the permit of this line are handed out, behind other statements.
fn put_given(alloc: Global, n: &ControlNames, s: Span, out: &mut Vec<Stmt>) -> Result<(), Memory>
    ensures { OnOk result (map plain_stmt out.new.items ≡ map plain_stmt out.old.items ++ given n.now s) }
{
    push_stmt(out, part_given(alloc, n, n.kind, Column::Kind, s))?;
    push_stmt(out, part_given(alloc, n, n.argument, Column::Argument, s))?;
    push_stmt(out, part_given(alloc, n, n.index, Column::Index, s))
}

// The parts of the permit of this line are handed out.
fn given(alloc: Global, n: &ControlNames, s: Span) -> Result<Vec<Stmt>, Memory>
    ensures { IfOk result (λ made. map plain_stmt made.items ≡ given n.now s) }
{
    let mut stmts = Vec::new(alloc);
    let done = put_given(alloc, n, s, &mut stmts);
    keep_stmts(stmts, done)
}

// The task of this line gets its permit.
fn going(alloc: Global, n: &ControlNames, s: Span) -> Result<Stmt, Memory>
    ensures { IfOk result (λ made. plain_stmt made ≡ going n.now s) }
{
    let index = some_expr(line_of(alloc, n, Column::Task, s));
    let formals = permit_formals(alloc, n, s);
    accept_by(n.go, index, formals, some_stmts(given(alloc, n, s)), s)
}

// It is heard that the task of this line is done.
fn hearing(alloc: Global, n: &ControlNames, s: Span) -> Result<Stmt, Memory>
    ensures { IfOk result (λ made. plain_stmt made ≡ hearing n.now s) }
{
    let index = some_expr(line_of(alloc, n, Column::Task, s));
    accept_by(n.done, index, Ok(Vec::new(alloc)), Ok(None), s)
}

// The handler of a call that waits for a task to be closed.
fn closing(alloc: Global, s: Span) -> Result<Vec<Handler>, Memory>
    ensures { IfOk result (λ made. handlers_of (map plain_handler made.items) ≡ join_handlers s) }
{
    let nothing = one_stmt(alloc, Ok(null_stmt(s)));
    one_handler(
        alloc,
        handler_one(alloc, word(NameId::TASKING_ERROR, s), nothing, s),
    )
}

// The controller waits until a task is closed.
fn joined(alloc: Global, n: &ControlNames, task: NameId, s: Span) -> Result<Stmt, Memory>
    ensures { IfOk result (λ made. plain_stmt made ≡ joined n.now s task) }
{
    let call = call_of(calling_of(word(task, s), word(n.join, s), Ok(None)), s);
    block_of(body_of(one_stmt(alloc, call), closing(alloc, s)), s)
}

// A branch for one value with one statement.
fn number_arm(
    alloc: Global,
    value: u32,
    stmt: Result<Stmt, Memory>,
    s: Span,
) -> Result<CaseArm, Memory>
    ensures { IfOk result (λ made. OkWith stmt (λ x. plain_case_arm made ≡ value_arm s value (one (plain_stmt x)))) }
{
    value_arm(alloc, Ok(integer_expr(value, s)), one_stmt(alloc, stmt))
}

// The branch for a task of this number and name.
fn join_arm(
    alloc: Global,
    n: &ControlNames,
    task: u32,
    name: NameId,
    s: Span,
) -> Result<CaseArm, Memory>
    ensures { IfOk result (λ made. plain_case_arm made ≡ value_arm s task (one (joined n.now s name))) }
{
    number_arm(alloc, task, joined(alloc, n, name, s), s)
}

// A branch for each task, numbered from `first` on, goes behind others.
fn put_join_arms(
    alloc: Global,
    n: &ControlNames,
    first: u32,
    infos: &[TaskInfo],
    s: Span,
    out: &mut Vec<CaseArm>,
) -> Result<(), Memory>
    requires { first + length infos.now < 2 ^ 32 }
    ensures { OnOk result (map plain_case_arm out.new.items ≡ map plain_case_arm out.old.items ++ join_arms n.now s first infos.now) }
{
    let mut task = first;
    for info in infos {
        push_case_arm(out, join_arm(alloc, n, task, info.name, s))?;
        task += 1;
    }
    Ok(())
}

// A branch for each task beside main.
fn join_arms(
    alloc: Global,
    n: &ControlNames,
    infos: &[TaskInfo],
    s: Span,
) -> Result<Vec<CaseArm>, Memory>
    requires { length infos.now < 2 ^ 32 }
    ensures { IfOk result (λ made. map plain_case_arm made.items ≡ join_arms n.now s 1 (drop 1 infos.now)) }
{
    let mut arms = Vec::new(alloc);
    let done = match infos.split_first() {
        Some((_main, others)) => put_join_arms(alloc, n, 1, others, s, &mut arms),
        None => Ok(()),
    };
    keep_case_arms(arms, done)
}

// The controller waits until the task of this line is closed.
fn joining(alloc: Global, n: &ControlNames, infos: &[TaskInfo], s: Span) -> Result<Stmt, Memory>
    requires { length infos.now < 2 ^ 32 }
    ensures { IfOk result (λ made. plain_stmt made ≡ joining n.now infos.now s) }
{
    let selector = line_of(alloc, n, Column::Task, s);
    let nothing = one_stmt(alloc, Ok(null_stmt(s)));
    case_others_of(selector, join_arms(alloc, n, infos, s), nothing, s)
}

// The branch for a permit.
fn go_arm(alloc: Global, n: &ControlNames, s: Span) -> Result<CaseArm, Memory>
    ensures { IfOk result (λ made. plain_case_arm made ≡ value_arm s 1 (one (going n.now s))) }
{
    number_arm(alloc, PERMIT, going(alloc, n, s), s)
}

// The branch for hearing that it is used.
fn done_arm(alloc: Global, n: &ControlNames, s: Span) -> Result<CaseArm, Memory>
    ensures { IfOk result (λ made. plain_case_arm made ≡ value_arm s 2 (one (hearing n.now s))) }
{
    number_arm(alloc, HEARING, hearing(alloc, n, s), s)
}

// These two go behind other branches.
fn put_turn_arms(
    alloc: Global,
    n: &ControlNames,
    s: Span,
    out: &mut Vec<CaseArm>,
) -> Result<(), Memory>
    ensures { OnOk result (map plain_case_arm out.new.items ≡ map plain_case_arm out.old.items ++ turn_arms n.now s) }
{
    push_case_arm(out, go_arm(alloc, n, s))?;
    push_case_arm(out, done_arm(alloc, n, s))
}

// The branches for a permit and for hearing that it is used.
fn turn_arms(alloc: Global, n: &ControlNames, s: Span) -> Result<Vec<CaseArm>, Memory>
    ensures { IfOk result (λ made. map plain_case_arm made.items ≡ turn_arms n.now s) }
{
    let mut arms = Vec::new(alloc);
    let done = put_turn_arms(alloc, n, s, &mut arms);
    keep_case_arms(arms, done)
}

// One turn of the loop.
pub(crate) fn turn(
    alloc: Global,
    n: &ControlNames,
    infos: &[TaskInfo],
    s: Span,
) -> Result<Stmt, Memory>
    requires { length infos.now < 2 ^ 32 }
    ensures { IfOk result (λ made. plain_stmt made ≡ turn n.now infos.now s) }
{
    let selector = line_of(alloc, n, Column::Operation, s);
    let others = one_stmt(alloc, joining(alloc, n, infos, s));
    case_others_of(selector, turn_arms(alloc, n, s), others, s)
}
