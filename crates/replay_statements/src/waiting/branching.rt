// The branches of a wait.

ghost use Rattle.std.specs.Prelude.{◌≡◌, ◌++◌, ◌∷◌, [], IfOk, OnOk, map};
ghost use Rattle.ada_tree.specs.PlainStmt.{plain_alt, plain_arm, seen, seen_maybe, alts_of};
ghost use Rattle.replay_model.specs.Waiting.{pauses_of};
ghost use Rattle.replay_statements.specs.waiting.Waited.{plain_pause, branch_of, next_number, branches, else_branch, wait_image};
ghost use Rattle.replay_asking.specs.Looked.{voice_of};

use crate::waiting::SeenPause;
use crate::waiting::guarding::{and_guard, is_due};
use crate::waiting::pausing::{ending, passing, pausing};
use ada_stmt_copy::building::arm_of;
use ada_stmt_copy::expressions::copy_option;
use ada_tree::{Alt, AltKind, Arm, Memory, Span, Stmt};
use control_script::{KIND_ELSE, KIND_END};
use replay_asking::making::{arms_joined, before, joined};
use replay_asking::{Speaker, ask_which, done, is_kind, is_served, serve};
use std::alloc::Global;
use tree_rewriting::making::{keep_arms, one_arm, one_stmt, push_arm, take_stmts};

// The delay alternative that an alternative is goes behind others.
fn put_pause(alloc: Global, alt: &Alt, out: &mut Vec<SeenPause>) -> Result<(), Memory>
    ensures { OnOk result (map plain_pause out.new.items ≡ map plain_pause out.old.items ++ pauses_of (alts_of (plain_alt alt.now ∷ []))) }
{
    match &alt.kind {
        AltKind::Delay { thousandths, .. } => {
            let guard = copy_option(alloc, &alt.guard)?;
            out.push(SeenPause {
                thousandths: *thousandths,
                guard,
            })?;
            Ok(())
        }
        _ => Ok(()),
    }
}

// The delay alternatives among alternatives, in written order.
fn pauses_of(alloc: Global, alts: &[Alt]) -> Result<Vec<SeenPause>, Memory>
    ensures { IfOk result (λ made. map plain_pause made.items ≡ pauses_of (alts_of (map plain_alt alts.now))) }
{
    let mut pauses = Vec::new(alloc);
    for alt in alts {
        put_pause(alloc, alt, &mut pauses)?;
    }
    Ok(pauses)
}

// The branch of an alternative, whose statements are taken from where they stand.
fn branch_of(
    alloc: Global,
    x: &Speaker,
    pauses: &[SeenPause],
    k: u32,
    alt: &mut Alt,
) -> Result<Arm, Memory>
    ensures { IfOk result (λ made. plain_arm made ≡ branch_of (voice_of x.now) (map plain_pause pauses.now) (plain_alt alt.old) k) }
{
    let s = alt.span;
    match &mut alt.kind {
        AltKind::Accept { accept, stmts } => {
            let test = and_guard(alloc, is_served(alloc, x, accept, s), &alt.guard, s);
            let served = serve(alloc, x, accept, s);
            arm_of(test, joined(served, Ok(take_stmts(alloc, stmts))))
        }
        AltKind::Delay { thousandths, stmts } => {
            let test = is_due(alloc, x, pauses, k, *thousandths, &alt.guard, s);
            let behind = before(alloc, done(alloc, x, s), Ok(take_stmts(alloc, stmts)));
            arm_of(test, before(alloc, pausing(alloc, x, pauses, k, s), behind))
        }
        AltKind::Terminate => {
            let test = and_guard(alloc, is_kind(alloc, x, KIND_END, s), &alt.guard, s);
            arm_of(test, one_stmt(alloc, ending(alloc, x, s)))
        }
    }
}

// The number of the next delay alternative; want of memory where there is no such number.
fn next_number(alt: &Alt, k: u32) -> Result<u32, Memory>
    ensures { IfOk result (λ next. next ≡ next_number (plain_alt alt.now) k) }
{
    match &alt.kind {
        AltKind::Delay { .. } => match k.checked_add(1) {
            Some(next) => Ok(next),
            None => Err(Memory),
        },
        _ => Ok(k),
    }
}

// The branches of alternatives go behind others.
fn put_branches(
    alloc: Global,
    x: &Speaker,
    pauses: &[SeenPause],
    alts: &mut Vec<Alt>,
    out: &mut Vec<Arm>,
) -> Result<(), Memory>
    ensures { OnOk result (map plain_arm out.new.items ≡ map plain_arm out.old.items ++ branches (voice_of x.now) (map plain_pause pauses.now) (map plain_alt alts.old.items) 1) }
{
    let mut k = 1u32;
    for alt in alts.iter_mut() {
        let next = next_number(alt, k)?;
        push_arm(out, branch_of(alloc, x, pauses, k, alt))?;
        k = next;
    }
    Ok(())
}

// The branches of all alternatives.
fn branches(alloc: Global, x: &Speaker, alts: &mut Vec<Alt>) -> Result<Vec<Arm>, Memory>
    ensures { IfOk result (λ made. map plain_arm made.items ≡ branches (voice_of x.now) (pauses_of (alts_of (map plain_alt alts.old.items))) (map plain_alt alts.old.items) 1) }
{
    let pauses = pauses_of(alloc, alts.as_slice())?;
    let mut arms = Vec::new(alloc);
    let done = put_branches(alloc, x, &pauses, alts, &mut arms);
    keep_arms(arms, done)
}

// The branch of the else part, where there is one.
fn else_branch(
    alloc: Global,
    x: &Speaker,
    otherwise: Option<Vec<Stmt>>,
    s: Span,
) -> Result<Vec<Arm>, Memory>
    ensures { IfOk result (λ made. map plain_arm made.items ≡ else_branch (voice_of x.now) s (seen_maybe otherwise)) }
{
    match otherwise {
        None => Ok(Vec::new(alloc)),
        Some(stmts) => {
            let behind = before(alloc, done(alloc, x, s), Ok(stmts));
            let taken = before(alloc, passing(alloc, x, s), behind);
            one_arm(alloc, arm_of(is_kind(alloc, x, KIND_ELSE, s), taken))
        }
    }
}

/// What stands in the place of a selective wait. The statements of its alternatives are taken from where they stand.
pub fn wait_image(
    alloc: Global,
    x: &Speaker,
    alts: &mut Vec<Alt>,
    otherwise: Option<Vec<Stmt>>,
    s: Span,
) -> Result<Vec<Stmt>, Memory>
    ensures { IfOk result (λ made. seen made.items ≡ wait_image (voice_of x.now) s (map plain_alt alts.old.items) (seen_maybe otherwise)) }
{
    let arms = branches(alloc, x, alts);
    let last = else_branch(alloc, x, otherwise, s);
    ask_which(alloc, x, arms_joined(arms, last), s)
}
