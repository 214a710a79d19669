// The body of the controller.

ghost use Rattle.std.specs.Prelude.{◌≡◌, ◌≤◌, ◌<◌, ◌^◌, ◌++◌, map, length, take, false, Some, None, [], IfOk, OnOk, IfSome, option_map, position};
ghost use Rattle.ada_tree.specs.PlainStmt.{plain_body, plain_scheme, plain_stmt, absent, LFor};
ghost use Rattle.ada_tree.specs.PlainDecl.{plain_decl};
ghost use Rattle.ada_stmt_copy.specs.expressions.Parts.{OkWith};
ghost use Rattle.normal_model.specs.Ranges.{word_at};
ghost use Rattle.replay_model.specs.tables.ControlTexts.{ids_in, with_control_names};
ghost use Rattle.replay_model.specs.tables.Columns.{is_hold, acts, holds};
ghost use Rattle.replay_model.specs.tables.Tables.{up_to, control_objects};
ghost use Rattle.replay_model.specs.tables.Turns.{accept_by};
ghost use Rattle.replay_model.specs.tables.ControlBodies.{loop_over, loops, waits, control_block};
ghost use Rattle.table_law.specs.runs.Bodies.{Permits};

use crate::names::control_names;
use crate::tables::{tables, up_to, word};
use crate::turns::{accept_by, turn};
use ada_stmt_copy::building::{body_of, loop_of};
use ada_stmt_copy::expressions::both;
use ada_tree::{Body, Decl, Memory, Names, Scheme, Span, Stmt};
use control_script::Op;
use replay_model::tables::ControlNames;
use std::alloc::Global;
use syn_event::{Numbers, TaskInfo};
use tree_rewriting::making::{keep_stmts, one_stmt, push_stmt};

/// The objects and the body of the controller.
pub struct ControlBody {
    pub objects: Vec<Decl>,
    pub body: Body,
}

impl Drop for ControlBody {
    fn drop(self) {
        let ControlBody {
            objects: _objects,
            body: _body,
        } = self;
    }
}

impl ControlBody {
    /// The objects, and the body.
    pub fn parts(self) -> (Vec<Decl>, Body)
        ensures objects { result.0 ≡ self.objects }
        ensures body { result.1 ≡ self.body }
    {
        let ControlBody { objects, body } = self;
        (objects, body)
    }
}

// The controller waits for ever.
fn is_hold(op: &Op) -> bool
    ensures { result ≡ is_hold op.now }
{
    matches!(*op, Op::Hold)
}

// The place of the first that waits for ever.
fn first_hold(ops: &[Op]) -> Option<usize>
    ensures place { result ≡ position is_hold ops.now }
    ensures within { IfSome result (λ place. place < length ops.now) }
{
    ops.iter().position(|op| is_hold(op))
}

// The operations that are made.
fn acts(ops: &[Op]) -> &[Op]
    ensures { result.now ≡ acts ops.now }
{
    match first_hold(ops) {
        Some(place) => &ops[..place],
        None => ops,
    }
}

// Whether the controller waits for ever behind them.
fn has_hold(ops: &[Op]) -> bool
    ensures { result ≡ holds ops.now }
{
    ops.iter().any(|op| is_hold(op))
}

// `for DED_N in 1 .. count`
fn counting(n: &ControlNames, count: u32, s: Span) -> Result<Option<Scheme>, Memory>
    ensures { IfOk result (λ made. option_map plain_scheme made ≡ Some (LFor (word_at s n.now.counter) false (up_to s count))) }
{
    Ok(Some(Scheme::For {
        name: word(n.counter, s),
        reverse: false,
        range: up_to(count, s),
    }))
}

// The loop over so many operations.
fn loop_over(
    alloc: Global,
    n: &ControlNames,
    infos: &[TaskInfo],
    count: u32,
    s: Span,
) -> Result<Stmt, Memory>
    requires { length infos.now < 2 ^ 32 }
    ensures { IfOk result (λ made. plain_stmt made ≡ loop_over n.now infos.now s count) }
{
    let stmts = one_stmt(alloc, turn(alloc, n, infos, s));
    loop_of(None, counting(n, count, s), stmts, s)
}

// `accept HOLD;`
fn waiting(alloc: Global, n: &ControlNames, s: Span) -> Result<Stmt, Memory>
    ensures { IfOk result (λ made. plain_stmt made ≡ accept_by s n.now.hold None [] absent) }
{
    accept_by(n.hold, Ok(None), Ok(Vec::new(alloc)), Ok(None), s)
}

// The loop over so many operations, where there are some, goes behind other statements.
fn put_loop(
    alloc: Global,
    n: &ControlNames,
    infos: &[TaskInfo],
    count: u32,
    s: Span,
    out: &mut Vec<Stmt>,
) -> Result<(), Memory>
    requires { length infos.now < 2 ^ 32 }
    ensures { OnOk result (map plain_stmt out.new.items ≡ map plain_stmt out.old.items ++ loops n.now infos.now s count) }
{
    if count == 0 {
        return Ok(());
    }
    push_stmt(out, loop_over(alloc, n, infos, count, s))
}

// `accept HOLD;`, where the controller waits for ever, goes behind other statements.
fn put_wait(
    alloc: Global,
    n: &ControlNames,
    holds: bool,
    s: Span,
    out: &mut Vec<Stmt>,
) -> Result<(), Memory>
    ensures { OnOk result (map plain_stmt out.new.items ≡ map plain_stmt out.old.items ++ waits n.now s holds) }
{
    if holds {
        push_stmt(out, waiting(alloc, n, s))
    } else {
        Ok(())
    }
}

// The statements of the controller go behind others.
fn put_stmts(
    alloc: Global,
    n: &ControlNames,
    infos: &[TaskInfo],
    count: u32,
    holds: bool,
    s: Span,
    out: &mut Vec<Stmt>,
) -> Result<(), Memory>
    requires { length infos.now < 2 ^ 32 }
    ensures { OnOk result (map plain_stmt out.new.items ≡ map plain_stmt out.old.items ++ (loops n.now infos.now s count ++ waits n.now s holds)) }
{
    put_loop(alloc, n, infos, count, s, out)?;
    put_wait(alloc, n, holds, s, out)
}

// The statements of the controller that makes so many operations.
fn stmts(
    alloc: Global,
    n: &ControlNames,
    infos: &[TaskInfo],
    count: u32,
    holds: bool,
    s: Span,
) -> Result<Vec<Stmt>, Memory>
    requires { length infos.now < 2 ^ 32 }
    ensures { IfOk result (λ made. map plain_stmt made.items ≡ loops n.now infos.now s count ++ waits n.now s holds) }
{
    let mut made = Vec::new(alloc);
    let done = put_stmts(alloc, n, infos, count, holds, s, &mut made);
    keep_stmts(made, done)
}

// The greatest number of operations, which is the greatest number of INTEGER.
const MOST_OPERATIONS: usize = 2147483647;

/// The objects and the body of the controller that makes these operations, where all of it stands at one place (`objects`, `body`). In each run of a
/// program that has them, and is otherwise as `HasBody` asks, the controller makes the operations in their order and goes past each by that operation
/// alone (`permits`). The names in them are interned, each once, and stand behind those that were there, also after an error (`names`, `begins`). It
/// takes time linear in the operations and the tasks. The only error is want of memory, also where there are more operations than INTEGER has numbers.
pub fn control_body(
    alloc: Global,
    ops: &[Op],
    numbers: &Numbers,
    s: Span,
    names: &mut Names,
) -> Result<ControlBody, Memory>
    ensures objects { IfOk result (λ made. map plain_decl made.objects.items ≡ control_objects (ids_in names.new) s ops.now) }
    ensures body { IfOk result (λ made. plain_body made.body ≡ control_block (ids_in names.new) numbers.now.tasks s ops.now) }
    ensures few { OnOk result (length (acts ops.now) ≤ 2147483647) }
    ensures names { OnOk result (names.new ≡ with_control_names names.old) }
    ensures begins { take (length names.old) names.new ≡ names.old }
    ensures permits { IfOk result (λ made. Permits (map plain_decl made.objects.items) (plain_body made.body) ops.now numbers.now.tasks s names.new) }
{
    let n = control_names(names)?;
    body_by(alloc, ops, numbers, s, &n)
}

// The objects and the body of the controller, by the ids of the names.
fn body_by(
    alloc: Global,
    ops: &[Op],
    numbers: &Numbers,
    s: Span,
    n: &ControlNames,
) -> Result<ControlBody, Memory>
    ensures objects { IfOk result (λ made. map plain_decl made.objects.items ≡ control_objects n.now s ops.now) }
    ensures body { IfOk result (λ made. plain_body made.body ≡ control_block n.now numbers.now.tasks s ops.now) }
    ensures few { OnOk result (length (acts ops.now) ≤ 2147483647) }
{
    let made = acts(ops);
    if made.len() > MOST_OPERATIONS {
        return Err(Memory);
    }
    let count = made.len() as u32;
    let stmts = stmts(alloc, n, &numbers.tasks, count, has_hold(ops), s);
    let body = body_of(stmts, Ok(Vec::new(alloc)));
    body_with(tables(alloc, n, made, count, s), body)
}

// These objects and this body.
fn body_with(
    objects: Result<Vec<Decl>, Memory>,
    body: Result<Body, Memory>,
) -> Result<ControlBody, Memory>
    ensures { IfOk result (λ made. OkWith objects (λ o. OkWith body (λ b. (made.objects ≡ o) × (made.body ≡ b)))) }
{
    match both(objects, body) {
        Ok((objects, body)) => Ok(ControlBody { objects, body }),
        Err(e) => Err(e),
    }
}
