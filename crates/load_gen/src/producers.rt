// The producers, each of which gives its number three times.

ghost use Rattle.std.specs.Prelude.{◌≡◌, ◌≤◌, ◌++◌, map, IfOk, OnOk};
ghost use Rattle.ada_tree.specs.PlainStmt.{plain_call, plain_stmt};
ghost use Rattle.ada_tree.specs.PlainDecl.{plain_decl};
ghost use Rattle.load_gen.specs.LoadTree.{give, give_thrice, most_producers, producer_body, producer_task, producers};

use crate::words::{BUFFER, NOWHERE, TURN, producer, word};
use ada_stmt_copy::building::{body_of, call_of, loop_of};
use ada_tree::{Bounds, Decl, Drange, Memory, NameId, Scheme, Stmt};
use ada_tree_copy::building::{task_body_of, task_of, unit_of};
use std::alloc::Global;
use tree_rewriting::making::{
    args_of, calling_of, integer_expr, one_expr, one_stmt, push_decl, some_args,
};

// How many numbers a producer gives.
const TIMES: u32 = 3;

// `task Pk;`
fn producer_task(alloc: Global, k: u32) -> Result<Decl, Memory>
    requires { k ≤ most_producers }
    ensures { IfOk result (λ made. plain_decl made ≡ producer_task k) }
{
    let name = word(producer(k));
    task_of(
        unit_of(name, false, Ok(Vec::new(alloc)), Ok(Vec::new(alloc))),
        NOWHERE,
    )
}

// `B.PUT(k);`
fn give(alloc: Global, k: u32) -> Result<Stmt, Memory>
    ensures { IfOk result (λ made. plain_stmt made ≡ give k) }
{
    let actuals = one_expr(alloc, Ok(integer_expr(k, NOWHERE)));
    let args = some_args(args_of(actuals, Ok(None)));
    call_of(calling_of(word(BUFFER), word(NameId::PUT), args), NOWHERE)
}

// `for J in 1 .. 3 loop B.PUT(k); end loop;`
fn give_thrice(alloc: Global, k: u32) -> Result<Stmt, Memory>
    ensures { IfOk result (λ made. plain_stmt made ≡ give_thrice k) }
{
    let turns = Scheme::For {
        name: word(TURN),
        reverse: false,
        range: Drange::Given(Bounds {
            first: integer_expr(1, NOWHERE),
            last: integer_expr(TIMES, NOWHERE),
        }),
    };
    loop_of(
        None,
        Ok(Some(turns)),
        one_stmt(alloc, give(alloc, k)),
        NOWHERE,
    )
}

// `task body Pk is .. end Pk;`
fn producer_body(alloc: Global, k: u32) -> Result<Decl, Memory>
    requires { k ≤ most_producers }
    ensures { IfOk result (λ made. plain_decl made ≡ producer_body k) }
{
    let its = body_of(one_stmt(alloc, give_thrice(alloc, k)), Ok(Vec::new(alloc)));
    task_body_of(word(producer(k)), Ok(Vec::new(alloc)), its, NOWHERE)
}

/// The tasks of n producers go behind other declarations.
#[tactic(auto, using(crate::proofs::Growing::grown))]
pub(crate) fn put_tasks(alloc: Global, n: u32, out: &mut Vec<Decl>) -> Result<(), Memory>
    requires { n ≤ most_producers }
    ensures { OnOk result (map plain_decl out.new.items ≡ map plain_decl out.old.items ++ map producer_task (producers n)) }
{
    for k in 0..n {
        push_decl(out, producer_task(alloc, k + 1))?;
    }
    Ok(())
}

/// Their bodies go behind other declarations.
#[tactic(auto, using(crate::proofs::Growing::grown))]
pub(crate) fn put_bodies(alloc: Global, n: u32, out: &mut Vec<Decl>) -> Result<(), Memory>
    requires { n ≤ most_producers }
    ensures { OnOk result (map plain_decl out.new.items ≡ map plain_decl out.old.items ++ map producer_body (producers n)) }
{
    for k in 0..n {
        push_decl(out, producer_body(alloc, k + 1))?;
    }
    Ok(())
}
