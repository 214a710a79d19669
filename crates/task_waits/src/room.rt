// The widest wait of a unit's body. Lists are gone through by loops, so recursion follows nesting alone.

ghost use Rattle.std.specs.Prelude.{◌≡◌, suc, map, max};
ghost use Rattle.ada_tree.specs.PlainStmt.{plain_accept, plain_alt, plain_alt_kind, plain_arm, plain_case_arm, plain_handler, plain_body, plain_stmt, alts_of, arms_of, case_arms_of, handlers_of, seen};
ghost use Rattle.task_waits.specs.Room.{alternatives_in, room_at, widest_stmt, widest_stmts, widest_accept, widest_kind, widest_alts, widest_arms, widest_case_arms, widest_handlers, widest_body};
ghost use Rattle.task_waits.specs.inner.Widths.{inner_width, rest_width};

use ada_tree::{Accept, Alt, AltKind, Arm, Body, CaseArm, Handler, Stmt, StmtKind};

/// The room that the choices of a wait take at most.
pub(crate) fn room_of(alts: &[Alt]) -> usize
    ensures { result ≡ suc (alternatives_in (alts_of (map plain_alt alts.now))) }
{
    alts.len() + 1
}

/// The room that the choices of a statement take at most: one choice for each alternative of a selective wait and one for its else part,
/// and one for an accept statement.
pub fn room_at(stmt: &Stmt) -> usize
    ensures { result ≡ room_at (plain_stmt stmt.now) }
{
    match &stmt.kind {
        StmtKind::Accept(_) => 1,
        StmtKind::Wait { alts, .. } => room_of(alts),
        _ => 0,
    }
}

// The wider of two rooms.
fn wider(left: usize, right: usize) -> usize
    ensures { result ≡ max left right }
{
    if left < right { right } else { left }
}

#[cycle(widths)]
fn widest_accept(accept: &Accept) -> usize
    ensures { result ≡ widest_accept (plain_accept accept.now) }
{
    match &accept.stmts {
        Some(list) => widest_among(list),
        None => 0,
    }
}

#[cycle(widths)]
fn widest_kind(kind: &AltKind) -> usize
    ensures { result ≡ widest_kind (plain_alt_kind kind.now) }
{
    match kind {
        AltKind::Accept { accept, stmts } => {
            let inner = widest_accept(accept);
            wider(inner, widest_among(stmts))
        }
        AltKind::Delay { stmts, .. } => widest_among(stmts),
        AltKind::Terminate => 0,
    }
}

#[cycle(widths)]
fn widest_alts(alts: &[Alt]) -> usize
    ensures { result ≡ widest_alts (alts_of (map plain_alt alts.now)) }
{
    let mut width: usize = 0;
    for alt in alts {
        let found = widest_kind(&alt.kind);
        width = wider(width, found);
    }
    width
}

#[cycle(widths)]
fn widest_arms(arms: &[Arm]) -> usize
    ensures { result ≡ widest_arms (arms_of (map plain_arm arms.now)) }
{
    let mut width: usize = 0;
    for arm in arms {
        let found = widest_among(&arm.stmts);
        width = wider(width, found);
    }
    width
}

#[cycle(widths)]
fn widest_case_arms(arms: &[CaseArm]) -> usize
    ensures { result ≡ widest_case_arms (case_arms_of (map plain_case_arm arms.now)) }
{
    let mut width: usize = 0;
    for arm in arms {
        let found = widest_among(&arm.stmts);
        width = wider(width, found);
    }
    width
}

#[cycle(widths)]
fn widest_handlers(handlers: &[Handler]) -> usize
    ensures { result ≡ widest_handlers (handlers_of (map plain_handler handlers.now)) }
{
    let mut width: usize = 0;
    for handler in handlers {
        let found = widest_among(&handler.stmts);
        width = wider(width, found);
    }
    width
}

/// The room that the statements of a body and of its handlers take at most, those inside of others among them: a list of so much room
/// is enough for each look at one of them.
#[cycle(widths)]
pub fn widest_wait(body: &Body) -> usize
    ensures { result ≡ widest_body (plain_body body.now) }
{
    let inner = widest_among(&body.stmts);
    wider(inner, widest_handlers(&body.handlers))
}

// The statements that come first in a statement.
#[cycle(widths)]
fn inner_width(stmt: &Stmt) -> usize
    ensures { result ≡ inner_width (plain_stmt stmt.now) }
{
    match &stmt.kind {
        StmtKind::Accept(accept) => widest_accept(accept),
        StmtKind::Wait { alts, .. } => widest_alts(alts),
        StmtKind::Conditional { behind, .. } => widest_among(behind),
        StmtKind::Timed { behind, .. } => widest_among(behind),
        StmtKind::If { arms, .. } => widest_arms(arms),
        StmtKind::Case { arms, .. } => widest_case_arms(arms),
        StmtKind::Block(body) => widest_wait(body),
        StmtKind::Loop { stmts, .. } => widest_among(stmts),
        _ => 0,
    }
}

// The statements behind those: of an else part, of a delay, for other choices.
#[cycle(widths)]
fn rest_width(stmt: &Stmt) -> usize
    ensures { result ≡ rest_width (plain_stmt stmt.now) }
{
    match &stmt.kind {
        StmtKind::Conditional { otherwise, .. } => widest_among(otherwise),
        StmtKind::Timed { after, .. } => widest_among(after),
        StmtKind::Wait {
            otherwise: Some(list),
            ..
        } => widest_among(list),
        StmtKind::If {
            otherwise: Some(list),
            ..
        } => widest_among(list),
        StmtKind::Case {
            others: Some(list),
            ..
        } => widest_among(list),
        _ => 0,
    }
}

#[cycle(widths)]
fn widest_stmt(stmt: &Stmt) -> usize
    ensures { result ≡ widest_stmt (plain_stmt stmt.now) }
{
    let own = room_at(stmt);
    let inner = inner_width(stmt);
    let rest = rest_width(stmt);
    wider(wider(own, inner), rest)
}

/// The same of a list of statements.
#[cycle(widths)]
pub fn widest_among(list: &[Stmt]) -> usize
    ensures { result ≡ widest_stmts (seen list.now) }
{
    let mut width: usize = 0;
    for stmt in list {
        let found = widest_stmt(stmt);
        width = wider(width, found);
    }
    width
}
