// What stands in the place of calls.

ghost use Rattle.std.specs.Prelude.{◌≡◌, IfOk};
ghost use Rattle.ada_tree.specs.PlainExpr.{plain_expr};
ghost use Rattle.ada_tree.specs.PlainStmt.{plain_call, plain_stmt, seen};
ghost use Rattle.ada_stmt_copy.specs.expressions.Parts.{OkWith};
ghost use Rattle.collect_model.specs.aborts.Calling.{call_watched, call_told, is_part, parts_behind, plain_image, conditional_image, timed_image};
ghost use Rattle.collect_statements.specs.Looked.{teller_of};

use crate::noting::returned_then;
use ada_stmt_copy::building::{block_of, body_of, call_of, conditional_of, timed_of};
use ada_tree::{BinaryOp, Call, Expr, Memory, Span, Stmt};
use collect_statements::kinds::{BEFORE_CALL, HAS_CALL_ELSE, HAS_EXPIRED, HAS_FAILED};
use collect_statements::{
    Reporter, call_note, call_telling, fails_late, own_note, part_is, raising,
};
use replay_asking::making::before;
use replay_asking::whatever;
use std::alloc::Global;
use tree_rewriting::making::{binary_of, if_one, integer_expr, name_expr, one_stmt, some_stmts};

/// The call itself comes, or its other part.
const CALL_PART: u32 = 1;

const OTHER_PART: u32 = 2;

// The statement of a call, in a block that tells of each exception that is raised there.
fn call_watched(
    alloc: Global,
    x: &Reporter,
    call: &Call,
    stmt: Result<Stmt, Memory>,
    s: Span,
) -> Result<Stmt, Memory>
    ensures { IfOk result (λ made. OkWith stmt (λ y. plain_stmt made ≡ call_watched (teller_of x.now) s (plain_call call.now) (plain_stmt y))) }
{
    let late = before(alloc, fails_late(alloc, x, s), raising(alloc, s));
    let failing = before(alloc, call_note(alloc, x, HAS_FAILED, call, s), late);
    block_of(
        body_of(one_stmt(alloc, stmt), whatever(alloc, failing, s)),
        s,
    )
}

// What stands for the statement of a call: the note before it, the statement, and what is behind.
fn call_told(
    alloc: Global,
    x: &Reporter,
    call: &Call,
    stmt: Result<Stmt, Memory>,
    behind: Result<Vec<Stmt>, Memory>,
    s: Span,
) -> Result<Vec<Stmt>, Memory>
    ensures { IfOk result (λ made. OkWith stmt (λ y. OkWith behind (λ b. seen made.items ≡ call_told (teller_of x.now) s (plain_call call.now) (plain_stmt y) (seen b.items)))) }
{
    let watched = call_watched(alloc, x, call, stmt, s);
    before(
        alloc,
        own_note(alloc, x, BEFORE_CALL, 0, s),
        before(alloc, watched, behind),
    )
}

/// The test which part of a call, or of a wait, came.
pub(crate) fn is_part(alloc: Global, x: &Reporter, part: u32, s: Span) -> Result<Expr, Memory>
    ensures { IfOk result (λ made. plain_expr made ≡ is_part (teller_of x.now) s part) }
{
    binary_of(
        alloc,
        BinaryOp::Equal,
        Ok(name_expr(x.tables.added.part, s)),
        Ok(integer_expr(part, s)),
        s,
    )
}

// What stands behind a conditional or timed call: the note that it came back, the test and what follows the call, or the note of the other part, the test and the other part.
fn parts_behind(
    alloc: Global,
    x: &Reporter,
    kind: u32,
    call: &Call,
    met: Vec<Stmt>,
    other: Vec<Stmt>,
    s: Span,
) -> Result<Stmt, Memory>
    ensures { IfOk result (λ made. plain_stmt made ≡ parts_behind (teller_of x.now) s kind (plain_call call.now) (seen met.items) (seen other.items)) }
{
    let test = is_part(alloc, x, CALL_PART, s);
    let met = returned_then(alloc, x, Ok(met), s);
    let late = before(alloc, fails_late(alloc, x, s), Ok(other));
    let other = before(alloc, call_note(alloc, x, kind, call, s), late);
    if_one(alloc, test, met, some_stmts(other), s)
}

/// What stands in the place of a plain call.
pub(crate) fn plain_image(
    alloc: Global,
    x: &Reporter,
    call: &Call,
    s: Span,
) -> Result<Vec<Stmt>, Memory>
    ensures { IfOk result (λ made. seen made.items ≡ plain_image (teller_of x.now) s (plain_call call.now)) }
{
    let stmt = call_of(call_telling(alloc, x, call, s), s);
    let behind = returned_then(alloc, x, Ok(Vec::new(alloc)), s);
    call_told(alloc, x, call, stmt, behind, s)
}

/// What stands in the place of a conditional call.
pub(crate) fn conditional_image(
    alloc: Global,
    x: &Reporter,
    call: &Call,
    behind: Vec<Stmt>,
    otherwise: Vec<Stmt>,
    s: Span,
) -> Result<Vec<Stmt>, Memory>
    ensures { IfOk result (λ made. seen made.items ≡ conditional_image (teller_of x.now) s (plain_call call.now) (seen behind.items) (seen otherwise.items)) }
{
    let stmt = conditional_of(
        call_telling(alloc, x, call, s),
        part_is(alloc, x, CALL_PART, s),
        part_is(alloc, x, OTHER_PART, s),
        s,
    );
    let parts = parts_behind(alloc, x, HAS_CALL_ELSE, call, behind, otherwise, s);
    call_told(alloc, x, call, stmt, one_stmt(alloc, parts), s)
}

/// What stands in the place of a timed call.
pub(crate) fn timed_image(
    alloc: Global,
    x: &Reporter,
    call: &Call,
    behind: Vec<Stmt>,
    thousandths: u32,
    after: Vec<Stmt>,
    s: Span,
) -> Result<Vec<Stmt>, Memory>
    ensures { IfOk result (λ made. seen made.items ≡ timed_image (teller_of x.now) s (plain_call call.now) (seen behind.items) thousandths (seen after.items)) }
{
    let stmt = timed_of(
        call_telling(alloc, x, call, s),
        part_is(alloc, x, CALL_PART, s),
        thousandths,
        part_is(alloc, x, OTHER_PART, s),
        s,
    );
    let parts = parts_behind(alloc, x, HAS_EXPIRED, call, behind, after, s);
    call_told(alloc, x, call, stmt, one_stmt(alloc, parts), s)
}
