// Selective waits.

ghost use Rattle.std.specs.Prelude.{◌≡◌, ◌∷◌, ◌++◌, ◌+◌, [], IfOk, OnOk, length, map};
ghost use Rattle.ada_tree.specs.PlainExpr.{plain_expr};
ghost use Rattle.ada_tree.specs.PlainStmt.{SIf, SWait, absent, alts_of, arms_of, plain_alt, plain_arm, seen, seen_maybe, stmt_then};
ghost use Rattle.normal_model.specs.Making.{one};
ghost use Rattle.collect_model.specs.Noting.{has_delay, own_note};
ghost use Rattle.collect_model.specs.Calling.{part_is};
ghost use Rattle.collect_model.specs.aborts.Serving.{repeated, service_watched};
ghost use Rattle.collect_model.specs.aborts.Waiting.{part_unless_refused, alternative_told, else_told, is_taken, wait_image};
ghost use Rattle.collect_abort.specs.Looked.{told_of};
ghost use Rattle.collect_abort.specs.Waited.{alternative_list, behind_of, branch_list, branch_of, branch_with, else_list, over_then, without_behind};

use crate::calls::is_part;
use crate::noting::over;
use crate::services::{accept_told, repeated, service_watched};
use crate::teller::{AbortReporter, refused_expr};
use ada_stmt_copy::building::{
    accept_alternative_of, arm_of, delay_alternative_of, if_of, terminate_alternative_of, wait_of,
};
use ada_stmt_copy::expressions::copy_option;
use ada_tree::{Alt, AltKind, Arm, BinaryOp, Expr, Memory, Span, Stmt};
use collect_statements::kinds::{HAS_DELAY, HAS_ELSE};
use collect_statements::{next_delay, or_null, own_note, part_is};
use normal_lookups::pieces::following;
use replay_asking::making::before;
use std::alloc::Global;
use tree_rewriting::making::{
    binary_of, if_one, integer_expr, name_expr, one_stmt, push_alt, push_arm, some_stmts,
    take_stmts,
};

// ---- the wait

// The part that the wait took is this one, or none where the caller has been refused.
fn part_unless_refused(
    alloc: Global,
    x: &AbortReporter,
    place: u32,
    part: u32,
    s: Span,
) -> Result<Vec<Stmt>, Memory>
    ensures { IfOk result (λ made. seen made.items ≡ one (part_unless_refused (told_of x.now) s place part)) }
{
    let test = refused_expr(alloc, x, place, s);
    let none = part_is(alloc, &x.reporter, 0, s);
    let this = some_stmts(part_is(alloc, &x.reporter, part, s));
    one_stmt(alloc, if_one(alloc, test, none, this, s))
}

// What stands behind the delay of an alternative: the note, and which part was taken.
fn delay_told(
    alloc: Global,
    x: &AbortReporter,
    part: u32,
    k: u32,
    s: Span,
) -> Result<Vec<Stmt>, Memory>
    ensures { IfOk result (λ made. seen made.items ≡ stmt_then (own_note (told_of x.now).teller s has_delay k) (part_is (told_of x.now).teller s part)) }
{
    before(
        alloc,
        own_note(alloc, &x.reporter, HAS_DELAY, k, s),
        part_is(alloc, &x.reporter, part, s),
    )
}

// The statements behind an alternative, of which it keeps none.
fn take_behind(alloc: Global, alt: &mut Alt) -> Vec<Stmt>
    ensures taken { seen result.items ≡ behind_of (plain_alt alt.old) }
    ensures left { plain_alt alt.new ≡ without_behind (plain_alt alt.old) }
{
    match &mut alt.kind {
        AltKind::Accept { stmts, .. } => take_stmts(alloc, stmts),
        AltKind::Delay { stmts, .. } => take_stmts(alloc, stmts),
        AltKind::Terminate => Vec::new(alloc),
    }
}

// What stands in the place of an alternative of this number, which is the k-th delay alternative if it is one. The statements of its accept body are taken from where they stand.
fn alternative_told(
    alloc: Global,
    x: &AbortReporter,
    place: u32,
    alt: &mut Alt,
    part: u32,
    k: u32,
) -> Result<Alt, Memory>
    ensures { IfOk result (λ made. plain_alt made ≡ alternative_told (told_of x.now) place (plain_alt alt.old) part k) }
{
    let s = alt.span;
    let guard = copy_option(alloc, &alt.guard);
    match &mut alt.kind {
        AltKind::Accept { accept, .. } => {
            let told = accept_told(alloc, x, place, accept, s);
            let behind = part_unless_refused(alloc, x, place, part, s);
            accept_alternative_of(guard, told, behind, s)
        }
        AltKind::Delay { thousandths, .. } => {
            delay_alternative_of(guard, *thousandths, delay_told(alloc, x, part, k, s), s)
        }
        AltKind::Terminate => terminate_alternative_of(guard, s),
    }
}

// The statements behind an accept, and in front of them the note that the rendezvous is over.
fn behind_over(
    alloc: Global,
    x: &AbortReporter,
    place: u32,
    stmts: Vec<Stmt>,
    s: Span,
) -> Result<Vec<Stmt>, Memory>
    ensures { IfOk result (λ made. seen made.items ≡ over_then (told_of x.now) s place (seen stmts.items)) }
{
    before(alloc, over(alloc, x, place, s), Ok(stmts))
}

// The branch of an alternative of this number, with these statements, goes behind others.
fn put_branch(
    alloc: Global,
    x: &AbortReporter,
    place: u32,
    alt: &Alt,
    stmts: Vec<Stmt>,
    part: u32,
    out: &mut Vec<Arm>,
) -> Result<(), Memory>
    ensures { OnOk result (map plain_arm out.new.items ≡ map plain_arm out.old.items ++ branch_with (told_of x.now) place (plain_alt alt.now) (seen stmts.items) part) }
{
    let s = alt.span;
    let test = is_part(alloc, &x.reporter, part, s);
    match &alt.kind {
        AltKind::Accept { .. } => {
            push_arm(out, arm_of(test, behind_over(alloc, x, place, stmts, s)))
        }
        AltKind::Delay { .. } => push_arm(out, arm_of(test, or_null(stmts, s))),
        AltKind::Terminate => Ok(()),
    }
}

// What stands in the place of an alternative, and its branch, go behind others.
fn put_alternative(
    alloc: Global,
    x: &AbortReporter,
    place: u32,
    alt: &mut Alt,
    part: u32,
    k: u32,
    told: &mut Vec<Alt>,
    arms: &mut Vec<Arm>,
) -> Result<(), Memory>
    ensures told { OnOk result (map plain_alt told.new.items ≡ map plain_alt told.old.items ++ alternative_told (told_of x.now) place (plain_alt alt.old) part k ∷ []) }
    ensures arms { OnOk result (map plain_arm arms.new.items ≡ map plain_arm arms.old.items ++ branch_of (told_of x.now) place (plain_alt alt.old) part) }
{
    let stmts = take_behind(alloc, alt);
    put_branch(alloc, x, place, alt, stmts, part, arms)?;
    push_alt(told, alternative_told(alloc, x, place, alt, part, k))
}

// What stands in the place of alternatives, and their branches, go behind others. The result is the number of the else part, if there is one.
fn put_alternatives(
    alloc: Global,
    x: &AbortReporter,
    place: u32,
    alts: &mut Vec<Alt>,
    told: &mut Vec<Alt>,
    arms: &mut Vec<Arm>,
) -> Result<u32, Memory>
    ensures told { OnOk result (map plain_alt told.new.items ≡ map plain_alt told.old.items ++ alternative_list (told_of x.now) place (map plain_alt alts.old.items) 1 1) }
    ensures arms { OnOk result (map plain_arm arms.new.items ≡ map plain_arm arms.old.items ++ branch_list (told_of x.now) place (map plain_alt alts.old.items) 1) }
    ensures last { IfOk result (λ part. part ≡ 1 + length alts.old.items) }
{
    let mut part = 1u32;
    let mut k = 1u32;
    for alt in alts.iter_mut() {
        let next = next_delay(alt, k)?;
        put_alternative(alloc, x, place, alt, part, k, told, arms)?;
        part = following(part)?;
        k = next;
    }
    Ok(part)
}

// What stands in the place of an else part of this number.
fn else_told(
    alloc: Global,
    x: &AbortReporter,
    otherwise: &Option<Vec<Stmt>>,
    part: u32,
    s: Span,
) -> Result<Option<Vec<Stmt>>, Memory>
    ensures { IfOk result (λ made. seen_maybe made ≡ else_told (told_of x.now) s (seen_maybe otherwise.now) part) }
{
    match otherwise {
        None => Ok(None),
        Some(_) => {
            let note = own_note(alloc, &x.reporter, HAS_ELSE, 0, s);
            some_stmts(before(alloc, note, part_is(alloc, &x.reporter, part, s)))
        }
    }
}

// The branch of an else part of this number goes behind others.
fn put_else(
    alloc: Global,
    x: &AbortReporter,
    otherwise: Option<Vec<Stmt>>,
    part: u32,
    s: Span,
    out: &mut Vec<Arm>,
) -> Result<(), Memory>
    ensures { OnOk result (map plain_arm out.new.items ≡ map plain_arm out.old.items ++ else_list (told_of x.now) s (seen_maybe otherwise) part) }
{
    match otherwise {
        None => Ok(()),
        Some(stmts) => {
            let test = is_part(alloc, &x.reporter, part, s);
            push_arm(out, arm_of(test, or_null(stmts, s)))
        }
    }
}

// What stands in the place of the alternatives and the else part of a wait, which is the result, and the branches behind it.
fn put_parts(
    alloc: Global,
    x: &AbortReporter,
    place: u32,
    alts: &mut Vec<Alt>,
    otherwise: Option<Vec<Stmt>>,
    s: Span,
    told: &mut Vec<Alt>,
    arms: &mut Vec<Arm>,
) -> Result<Option<Vec<Stmt>>, Memory>
    ensures told { OnOk result (map plain_alt told.new.items ≡ map plain_alt told.old.items ++ alternative_list (told_of x.now) place (map plain_alt alts.old.items) 1 1) }
    ensures arms { OnOk result (map plain_arm arms.new.items ≡ map plain_arm arms.old.items ++ (branch_list (told_of x.now) place (map plain_alt alts.old.items) 1 ++ else_list (told_of x.now) s (seen_maybe otherwise) (1 + length alts.old.items))) }
    ensures other { IfOk result (λ made. seen_maybe made ≡ else_told (told_of x.now) s (seen_maybe otherwise) (1 + length alts.old.items)) }
{
    let last = put_alternatives(alloc, x, place, alts, told, arms)?;
    let other = else_told(alloc, x, &otherwise, last, s);
    put_else(alloc, x, otherwise, last, s, arms)?;
    other
}

// ---- what stands around it

// Some part of the wait was taken.
fn is_taken(alloc: Global, x: &AbortReporter, s: Span) -> Result<Expr, Memory>
    ensures { IfOk result (λ made. plain_expr made ≡ is_taken (told_of x.now) s) }
{
    binary_of(
        alloc,
        BinaryOp::NotEqual,
        Ok(name_expr(x.reporter.tables.added.part, s)),
        Ok(integer_expr(0, s)),
        s,
    )
}

// The wait of these alternatives and this else part in its loop, and the branches behind it.
fn served(
    alloc: Global,
    x: &AbortReporter,
    place: u32,
    told: Vec<Alt>,
    other: Option<Vec<Stmt>>,
    arms: Vec<Arm>,
    s: Span,
) -> Result<Vec<Stmt>, Memory>
    ensures { IfOk result (λ made. seen made.items ≡ stmt_then (repeated s (service_watched (told_of x.now) s place (SWait (alts_of (map plain_alt told.items)) (seen_maybe other) s)) (is_taken (told_of x.now) s)) (one (SIf (arms_of (map plain_arm arms.items)) absent s))) }
{
    let wait = wait_of(Ok(told), Ok(other), s);
    let watched = service_watched(alloc, x, place, wait, s);
    let repeating = repeated(alloc, watched, is_taken(alloc, x, s), s);
    let branches = one_stmt(alloc, if_of(Ok(arms), Ok(None), s));
    before(alloc, repeating, branches)
}

/// What stands in the place of a selective wait, at a place of the unit. The statements of its alternatives are taken from where they stand.
pub(crate) fn wait_image(
    alloc: Global,
    x: &AbortReporter,
    place: u32,
    alts: &mut Vec<Alt>,
    otherwise: Option<Vec<Stmt>>,
    s: Span,
) -> Result<Vec<Stmt>, Memory>
    ensures { IfOk result (λ made. seen made.items ≡ wait_image (told_of x.now) s place (alts_of (map plain_alt alts.old.items)) (seen_maybe otherwise)) }
{
    let mut told = Vec::new(alloc);
    let mut arms = Vec::new(alloc);
    match put_parts(alloc, x, place, alts, otherwise, s, &mut told, &mut arms) {
        Ok(other) => served(alloc, x, place, told, other, arms, s),
        Err(e) => Err(e),
    }
}
