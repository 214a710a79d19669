// What stands in the place of calls.

ghost use Rattle.std.specs.Prelude.{◌≡◌, IfOk};
ghost use Rattle.ada_tree.specs.PlainStmt.{plain_call, plain_stmt, seen};
ghost use Rattle.ada_stmt_copy.specs.expressions.Parts.{OkWith};
ghost use Rattle.normal_model.specs.Making.{one, or_null};
ghost use Rattle.replay_model.specs.Serving.{raise_again};
ghost use Rattle.collect_model.specs.Calling.{call_watched, call_told, part_is, fails_late, parts_behind, plain_image, conditional_image, timed_image};
ghost use Rattle.collect_statements.specs.Looked.{teller_of};

use crate::Reporter;
use crate::calling::{call_note, call_telling};
use crate::kinds::{BEFORE_CALL, HAS_CALL_ELSE, HAS_EXPIRED, HAS_FAILED};
use crate::noting::own_note;
use ada_stmt_copy::building::{block_of, body_of, call_of, conditional_of, timed_of};
use ada_tree::{BinaryOp, Call, Memory, NameId, Span, Stmt};
use normal_lookups::pieces::fill_empty;
use replay_asking::making::before;
use replay_asking::word;
use std::alloc::Global;
use tree_rewriting::making::{
    assignment, binary_of, handler_one, if_one, integer_expr, keep_stmts, name_expr, one_handler,
    one_stmt, raise_stmt, reraise_stmt, some_stmts,
};

/// The call itself comes, or its other part.
const CALL_PART: u32 = 1;

const OTHER_PART: u32 = 2;

/// `raise;` as a row.
pub fn raising(alloc: Global, s: Span) -> Result<Vec<Stmt>, Memory>
    ensures { IfOk result (λ made. seen made.items ≡ one (raise_again s)) }
{
    one_stmt(alloc, Ok(reraise_stmt(s)))
}

// The statement of a call, in a block that tells where TASKING_ERROR is raised there.
fn call_watched(
    alloc: Global,
    x: &Reporter,
    call: &Call,
    stmt: Result<Stmt, Memory>,
    s: Span,
) -> Result<Stmt, Memory>
    ensures { IfOk result (λ made. OkWith stmt (λ y. plain_stmt made ≡ call_watched (teller_of x.now) s (plain_call call.now) (plain_stmt y))) }
{
    let failing = before(
        alloc,
        call_note(alloc, x, HAS_FAILED, call, s),
        raising(alloc, s),
    );
    let name = word(NameId::TASKING_ERROR, s);
    let handlers = one_handler(alloc, handler_one(alloc, name, failing, s));
    block_of(body_of(one_stmt(alloc, stmt), handlers), s)
}

// What stands for the statement of a call: the note before it, the statement, and what is behind.
fn call_told(
    alloc: Global,
    x: &Reporter,
    call: &Call,
    stmt: Result<Stmt, Memory>,
    behind: Result<Vec<Stmt>, Memory>,
    s: Span,
) -> Result<Vec<Stmt>, Memory>
    ensures { IfOk result (λ made. OkWith stmt (λ y. OkWith behind (λ b. seen made.items ≡ call_told (teller_of x.now) s (plain_call call.now) (plain_stmt y) (seen b.items)))) }
{
    let watched = call_watched(alloc, x, call, stmt, s);
    before(
        alloc,
        own_note(alloc, x, BEFORE_CALL, 0, s),
        before(alloc, watched, behind),
    )
}

/// The variable tells which part of the call came.
pub fn part_is(alloc: Global, x: &Reporter, part: u32, s: Span) -> Result<Vec<Stmt>, Memory>
    ensures { IfOk result (λ made. seen made.items ≡ part_is (teller_of x.now) s part) }
{
    let name = word(x.tables.added.part, s);
    one_stmt(alloc, assignment(name, Ok(integer_expr(part, s)), s))
}

/// TASKING_ERROR is raised where the recorder answers that the other part came too late.
pub fn fails_late(alloc: Global, x: &Reporter, s: Span) -> Result<Stmt, Memory>
    ensures { IfOk result (λ made. plain_stmt made ≡ fails_late (teller_of x.now) s) }
{
    let raising = one_stmt(alloc, Ok(raise_stmt(word(NameId::TASKING_ERROR, s), s)));
    if_one(
        alloc,
        Ok(name_expr(x.tables.added.answer, s)),
        raising,
        Ok(None),
        s,
    )
}

/// Where nothing stands, `null;` does.
pub fn or_null(stmts: Vec<Stmt>, s: Span) -> Result<Vec<Stmt>, Memory>
    ensures { IfOk result (λ made. seen made.items ≡ or_null s (seen stmts.items)) }
{
    let mut stmts = stmts;
    let done = fill_empty(&mut stmts, s);
    keep_stmts(stmts, done)
}

// What stands behind a conditional or timed call: what follows the call, or the note of the other part, the test of the answer and the other part.
fn parts_behind(
    alloc: Global,
    x: &Reporter,
    kind: u32,
    call: &Call,
    met: Vec<Stmt>,
    other: Vec<Stmt>,
    s: Span,
) -> Result<Stmt, Memory>
    ensures { IfOk result (λ made. plain_stmt made ≡ parts_behind (teller_of x.now) s kind (plain_call call.now) (seen met.items) (seen other.items)) }
{
    let test = binary_of(
        alloc,
        BinaryOp::Equal,
        Ok(name_expr(x.tables.added.part, s)),
        Ok(integer_expr(CALL_PART, s)),
        s,
    );
    let late = before(alloc, fails_late(alloc, x, s), Ok(other));
    let other = before(alloc, call_note(alloc, x, kind, call, s), late);
    if_one(alloc, test, or_null(met, s), some_stmts(other), s)
}

/// What stands in the place of a plain call.
pub(crate) fn plain_image(
    alloc: Global,
    x: &Reporter,
    call: &Call,
    s: Span,
) -> Result<Vec<Stmt>, Memory>
    ensures { IfOk result (λ made. seen made.items ≡ plain_image (teller_of x.now) s (plain_call call.now)) }
{
    let stmt = call_of(call_telling(alloc, x, call, s), s);
    call_told(alloc, x, call, stmt, Ok(Vec::new(alloc)), s)
}

/// What stands in the place of a conditional call.
pub(crate) fn conditional_image(
    alloc: Global,
    x: &Reporter,
    call: &Call,
    behind: Vec<Stmt>,
    otherwise: Vec<Stmt>,
    s: Span,
) -> Result<Vec<Stmt>, Memory>
    ensures { IfOk result (λ made. seen made.items ≡ conditional_image (teller_of x.now) s (plain_call call.now) (seen behind.items) (seen otherwise.items)) }
{
    let stmt = conditional_of(
        call_telling(alloc, x, call, s),
        part_is(alloc, x, CALL_PART, s),
        part_is(alloc, x, OTHER_PART, s),
        s,
    );
    let parts = parts_behind(alloc, x, HAS_CALL_ELSE, call, behind, otherwise, s);
    call_told(alloc, x, call, stmt, one_stmt(alloc, parts), s)
}

/// What stands in the place of a timed call.
pub(crate) fn timed_image(
    alloc: Global,
    x: &Reporter,
    call: &Call,
    behind: Vec<Stmt>,
    thousandths: u32,
    after: Vec<Stmt>,
    s: Span,
) -> Result<Vec<Stmt>, Memory>
    ensures { IfOk result (λ made. seen made.items ≡ timed_image (teller_of x.now) s (plain_call call.now) (seen behind.items) thousandths (seen after.items)) }
{
    let stmt = timed_of(
        call_telling(alloc, x, call, s),
        part_is(alloc, x, CALL_PART, s),
        thousandths,
        part_is(alloc, x, OTHER_PART, s),
        s,
    );
    let parts = parts_behind(alloc, x, HAS_EXPIRED, call, behind, after, s);
    call_told(alloc, x, call, stmt, one_stmt(alloc, parts), s)
}
