// The walk. Lists are gone through by loops, so recursion follows nesting alone; nothing is owned where a call may fail.

ghost use Rattle.std.specs.Prelude.{◌≡◌, OnOk, map};
ghost use Rattle.ada_tree.specs.PlainStmt.{plain_stmt, plain_accept, plain_alt, plain_alt_kind, plain_arm, plain_case_arm, plain_handler, plain_body, alts_of, arms_of, case_arms_of, handlers_of, seen};
ghost use Rattle.task_model.specs.Frames.{in_front};
ghost use Rattle.normal_model.specs.Walk.{after_parts, after_stmts, after_accept, after_kind, after_alts, after_arms, after_case_arms, after_body, after_handlers, alts_leads, leads, parts_rewritten, rewritten, inside_accept, inside_kind, inside_alts, inside_arms, inside_case_arms, inside_body, inside_handlers, image_of};
ghost use Rattle.tree_rewriting.specs.walking.Rules.{walk_of, after_arm, inside_arm, after_case_arm, inside_case_arm, after_handler, inside_handler, behind_alt, inside_alt};

use crate::walking::Rewriter;
use ada_tree::{Accept, Alt, AltKind, Arm, Body, CaseArm, Handler, Memory, Stmt, StmtKind};
use std::alloc::Global;

/// Statements become what stands in their place, in order. Where memory is wanting, nothing is said of them.
#[cycle(rewrite)]
pub fn rewrite<R: Rewriter>(
    alloc: Global,
    stmts: &mut Vec<Stmt>,
    r: &R,
    track: &mut R::Track,
) -> Result<(), Memory>
    requires { R.fits r.now track.old }
    ensures tree { OnOk result (seen stmts.new.items ≡ rewritten (walk_of (R.rule r.now)) (seen stmts.old.items) (R.state track.old)) }
    ensures state { OnOk result (R.state track.new ≡ after_stmts (walk_of (R.rule r.now)) (seen stmts.old.items) (R.state track.old)) }
    ensures fits { OnOk result (R.fits r.now track.new) }
{
    let mut out = Vec::new(alloc);
    rewrite_onto(alloc, stmts, &mut out, r, track)?;
    *stmts = out;
    Ok(())
}

// What stands in the place of statements, behind what is put already.
#[cycle(rewrite)]
fn rewrite_onto<R: Rewriter>(
    alloc: Global,
    stmts: &mut Vec<Stmt>,
    out: &mut Vec<Stmt>,
    r: &R,
    track: &mut R::Track,
) -> Result<(), Memory>
    requires { R.fits r.now track.old }
    ensures tree { OnOk result (seen out.new.items ≡ in_front (seen out.old.items) (rewritten (walk_of (R.rule r.now)) (seen stmts.old.items) (R.state track.old))) }
    ensures state { OnOk result (R.state track.new ≡ after_stmts (walk_of (R.rule r.now)) (seen stmts.old.items) (R.state track.old)) }
    ensures fits { OnOk result (R.fits r.now track.new) }
{
    for stmt in stmts.iter_mut() {
        rewrite_one(alloc, stmt, out, r, track)?;
    }
    Ok(())
}

// What stands in the place of one statement, behind what is put already.
#[cycle(rewrite)]
fn rewrite_one<R: Rewriter>(
    alloc: Global,
    stmt: &mut Stmt,
    out: &mut Vec<Stmt>,
    r: &R,
    track: &mut R::Track,
) -> Result<(), Memory>
    requires { R.fits r.now track.old }
    ensures tree { OnOk result (seen out.new.items ≡ in_front (seen out.old.items) (image_of (walk_of (R.rule r.now)) (plain_stmt stmt.old) (R.state track.old))) }
    ensures state { OnOk result (R.state track.new ≡ after_parts (walk_of (R.rule r.now)) (plain_stmt stmt.old) ((R.rule r.now).entered_stmt (R.state track.old) (plain_stmt stmt.old))) }
    ensures fits { OnOk result (R.fits r.now track.new) }
{
    let number = r.enter_stmt(track, stmt)?;
    inside_stmt(alloc, stmt, out, r, track)?;
    r.replace_stmt(track, number, stmt, out)
}

// The parts of a statement are rewritten; what its alternatives put in front of it goes behind what is put already.
#[cycle(rewrite)]
fn inside_stmt<R: Rewriter>(
    alloc: Global,
    stmt: &mut Stmt,
    out: &mut Vec<Stmt>,
    r: &R,
    track: &mut R::Track,
) -> Result<(), Memory>
    requires { R.fits r.now track.old }
    ensures tree { OnOk result (plain_stmt stmt.new ≡ parts_rewritten (walk_of (R.rule r.now)) (plain_stmt stmt.old) (R.state track.old)) }
    ensures lead { OnOk result (seen out.new.items ≡ in_front (seen out.old.items) (leads (walk_of (R.rule r.now)) (plain_stmt stmt.old) (R.state track.old))) }
    ensures state { OnOk result (R.state track.new ≡ after_parts (walk_of (R.rule r.now)) (plain_stmt stmt.old) (R.state track.old)) }
    ensures fits { OnOk result (R.fits r.now track.new) }
{
    match &mut stmt.kind {
        StmtKind::Accept(accept) => inside_accept_stmt(alloc, accept, r, track),
        StmtKind::Wait { alts, otherwise } => {
            inside_alts(alloc, alts, out, r, track)?;
            match otherwise {
                Some(stmts) => rewrite(alloc, stmts, r, track),
                None => Ok(()),
            }
        }
        StmtKind::Conditional {
            behind,
            otherwise,
            ..
        } => {
            rewrite(alloc, behind, r, track)?;
            rewrite(alloc, otherwise, r, track)
        }
        StmtKind::Timed { behind, after, .. } => {
            rewrite(alloc, behind, r, track)?;
            rewrite(alloc, after, r, track)
        }
        StmtKind::If { arms, otherwise } => {
            inside_arms(alloc, arms, r, track)?;
            match otherwise {
                Some(stmts) => rewrite(alloc, stmts, r, track),
                None => Ok(()),
            }
        }
        StmtKind::Case { arms, others, .. } => {
            inside_case_arms(alloc, arms, r, track)?;
            match others {
                Some(stmts) => rewrite(alloc, stmts, r, track),
                None => Ok(()),
            }
        }
        StmtKind::Block(body) => rewrite_body(alloc, body, r, track),
        StmtKind::Loop { stmts, .. } => rewrite(alloc, stmts, r, track),
        StmtKind::Null
        | StmtKind::Assign { .. }
        | StmtKind::Delay { .. }
        | StmtKind::Exit { .. }
        | StmtKind::Raise { .. }
        | StmtKind::Abort { .. }
        | StmtKind::Call(_)
        | StmtKind::Put { .. }
        | StmtKind::PutLine { .. }
        | StmtKind::NewLine
        | StmtKind::Get { .. } => Ok(()),
    }
}

#[cycle(rewrite)]
fn inside_accept_stmt<R: Rewriter>(
    alloc: Global,
    accept: &mut Accept,
    r: &R,
    track: &mut R::Track,
) -> Result<(), Memory>
    requires { R.fits r.now track.old }
    ensures tree { OnOk result (plain_accept accept.new ≡ inside_accept (walk_of (R.rule r.now)) (plain_accept accept.old) (R.state track.old)) }
    ensures state { OnOk result (R.state track.new ≡ after_accept (walk_of (R.rule r.now)) (plain_accept accept.old) (R.state track.old)) }
    ensures fits { OnOk result (R.fits r.now track.new) }
{
    match &mut accept.stmts {
        Some(stmts) => rewrite(alloc, stmts, r, track),
        None => Ok(()),
    }
}

#[cycle(rewrite)]
fn inside_alts<R: Rewriter>(
    alloc: Global,
    alts: &mut Vec<Alt>,
    out: &mut Vec<Stmt>,
    r: &R,
    track: &mut R::Track,
) -> Result<(), Memory>
    requires { R.fits r.now track.old }
    ensures tree { OnOk result (alts_of (map plain_alt alts.new.items) ≡ inside_alts (walk_of (R.rule r.now)) (alts_of (map plain_alt alts.old.items)) (R.state track.old)) }
    ensures lead { OnOk result (seen out.new.items ≡ in_front (seen out.old.items) (alts_leads (walk_of (R.rule r.now)) (alts_of (map plain_alt alts.old.items)) (R.state track.old))) }
    ensures state { OnOk result (R.state track.new ≡ after_alts (walk_of (R.rule r.now)) (alts_of (map plain_alt alts.old.items)) (R.state track.old)) }
    ensures fits { OnOk result (R.fits r.now track.new) }
{
    for alt in alts.iter_mut() {
        inside_one_alt(alloc, alt, out, r, track)?;
    }
    Ok(())
}

#[cycle(rewrite)]
fn inside_one_alt<R: Rewriter>(
    alloc: Global,
    alt: &mut Alt,
    out: &mut Vec<Stmt>,
    r: &R,
    track: &mut R::Track,
) -> Result<(), Memory>
    requires { R.fits r.now track.old }
    ensures tree { OnOk result (plain_alt alt.new ≡ inside_alt (walk_of (R.rule r.now)) (plain_alt alt.old) (R.state track.old)) }
    ensures lead { OnOk result (seen out.new.items ≡ in_front (seen out.old.items) ((walk_of (R.rule r.now)).lead (R.state track.old) (plain_alt alt.old))) }
    ensures state { OnOk result (R.state track.new ≡ behind_alt (walk_of (R.rule r.now)) (plain_alt alt.old) (R.state track.old)) }
    ensures fits { OnOk result (R.fits r.now track.new) }
{
    let number = r.enter_alternative(track, alt, out)?;
    inside_alt_kind(alloc, &mut alt.kind, r, track)?;
    r.leave_alternative(track, number, alt)
}

#[cycle(rewrite)]
fn inside_alt_kind<R: Rewriter>(
    alloc: Global,
    kind: &mut AltKind,
    r: &R,
    track: &mut R::Track,
) -> Result<(), Memory>
    requires { R.fits r.now track.old }
    ensures tree { OnOk result (plain_alt_kind kind.new ≡ inside_kind (walk_of (R.rule r.now)) (plain_alt_kind kind.old) (R.state track.old)) }
    ensures state { OnOk result (R.state track.new ≡ after_kind (walk_of (R.rule r.now)) (plain_alt_kind kind.old) (R.state track.old)) }
    ensures fits { OnOk result (R.fits r.now track.new) }
{
    match kind {
        AltKind::Accept { accept, stmts } => {
            inside_accept_stmt(alloc, accept, r, track)?;
            rewrite(alloc, stmts, r, track)
        }
        AltKind::Delay { stmts, .. } => rewrite(alloc, stmts, r, track),
        AltKind::Terminate => Ok(()),
    }
}

#[cycle(rewrite)]
fn inside_arms<R: Rewriter>(
    alloc: Global,
    arms: &mut Vec<Arm>,
    r: &R,
    track: &mut R::Track,
) -> Result<(), Memory>
    requires { R.fits r.now track.old }
    ensures tree { OnOk result (arms_of (map plain_arm arms.new.items) ≡ inside_arms (walk_of (R.rule r.now)) (arms_of (map plain_arm arms.old.items)) (R.state track.old)) }
    ensures state { OnOk result (R.state track.new ≡ after_arms (walk_of (R.rule r.now)) (arms_of (map plain_arm arms.old.items)) (R.state track.old)) }
    ensures fits { OnOk result (R.fits r.now track.new) }
{
    for arm in arms.iter_mut() {
        inside_one_arm(alloc, arm, r, track)?;
    }
    Ok(())
}

#[cycle(rewrite)]
fn inside_one_arm<R: Rewriter>(
    alloc: Global,
    arm: &mut Arm,
    r: &R,
    track: &mut R::Track,
) -> Result<(), Memory>
    requires { R.fits r.now track.old }
    ensures tree { OnOk result (plain_arm arm.new ≡ inside_arm (walk_of (R.rule r.now)) (plain_arm arm.old) (R.state track.old)) }
    ensures state { OnOk result (R.state track.new ≡ after_arm (walk_of (R.rule r.now)) (plain_arm arm.old) (R.state track.old)) }
    ensures fits { OnOk result (R.fits r.now track.new) }
{
    rewrite(alloc, &mut arm.stmts, r, track)
}

#[cycle(rewrite)]
fn inside_case_arms<R: Rewriter>(
    alloc: Global,
    arms: &mut Vec<CaseArm>,
    r: &R,
    track: &mut R::Track,
) -> Result<(), Memory>
    requires { R.fits r.now track.old }
    ensures tree { OnOk result (case_arms_of (map plain_case_arm arms.new.items) ≡ inside_case_arms (walk_of (R.rule r.now)) (case_arms_of (map plain_case_arm arms.old.items)) (R.state track.old)) }
    ensures state { OnOk result (R.state track.new ≡ after_case_arms (walk_of (R.rule r.now)) (case_arms_of (map plain_case_arm arms.old.items)) (R.state track.old)) }
    ensures fits { OnOk result (R.fits r.now track.new) }
{
    for arm in arms.iter_mut() {
        inside_one_case_arm(alloc, arm, r, track)?;
    }
    Ok(())
}

#[cycle(rewrite)]
fn inside_one_case_arm<R: Rewriter>(
    alloc: Global,
    arm: &mut CaseArm,
    r: &R,
    track: &mut R::Track,
) -> Result<(), Memory>
    requires { R.fits r.now track.old }
    ensures tree { OnOk result (plain_case_arm arm.new ≡ inside_case_arm (walk_of (R.rule r.now)) (plain_case_arm arm.old) (R.state track.old)) }
    ensures state { OnOk result (R.state track.new ≡ after_case_arm (walk_of (R.rule r.now)) (plain_case_arm arm.old) (R.state track.old)) }
    ensures fits { OnOk result (R.fits r.now track.new) }
{
    rewrite(alloc, &mut arm.stmts, r, track)
}

#[cycle(rewrite)]
fn inside_handlers<R: Rewriter>(
    alloc: Global,
    handlers: &mut Vec<Handler>,
    r: &R,
    track: &mut R::Track,
) -> Result<(), Memory>
    requires { R.fits r.now track.old }
    ensures tree { OnOk result (handlers_of (map plain_handler handlers.new.items) ≡ inside_handlers (walk_of (R.rule r.now)) (handlers_of (map plain_handler handlers.old.items)) (R.state track.old)) }
    ensures state { OnOk result (R.state track.new ≡ after_handlers (walk_of (R.rule r.now)) (handlers_of (map plain_handler handlers.old.items)) (R.state track.old)) }
    ensures fits { OnOk result (R.fits r.now track.new) }
{
    for handler in handlers.iter_mut() {
        inside_one_handler(alloc, handler, r, track)?;
    }
    Ok(())
}

#[cycle(rewrite)]
fn inside_one_handler<R: Rewriter>(
    alloc: Global,
    handler: &mut Handler,
    r: &R,
    track: &mut R::Track,
) -> Result<(), Memory>
    requires { R.fits r.now track.old }
    ensures tree { OnOk result (plain_handler handler.new ≡ inside_handler (walk_of (R.rule r.now)) (plain_handler handler.old) (R.state track.old)) }
    ensures state { OnOk result (R.state track.new ≡ after_handler (walk_of (R.rule r.now)) (plain_handler handler.old) (R.state track.old)) }
    ensures fits { OnOk result (R.fits r.now track.new) }
{
    rewrite(alloc, &mut handler.stmts, r, track)
}

/// The statements and handlers of a body become what stands in their place.
#[cycle(rewrite)]
pub fn rewrite_body<R: Rewriter>(
    alloc: Global,
    body: &mut Body,
    r: &R,
    track: &mut R::Track,
) -> Result<(), Memory>
    requires { R.fits r.now track.old }
    ensures tree { OnOk result (plain_body body.new ≡ inside_body (walk_of (R.rule r.now)) (plain_body body.old) (R.state track.old)) }
    ensures state { OnOk result (R.state track.new ≡ after_body (walk_of (R.rule r.now)) (plain_body body.old) (R.state track.old)) }
    ensures fits { OnOk result (R.fits r.now track.new) }
{
    rewrite(alloc, &mut body.stmts, r, track)?;
    inside_handlers(alloc, &mut body.handlers, r, track)
}
