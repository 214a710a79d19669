// Selective waits.

ghost use Rattle.std.specs.Prelude.{◌≡◌, ◌++◌, IfOk, OnOk, map};
ghost use Rattle.ada_tree.specs.PlainStmt.{plain_alt, plain_stmt, seen, seen_maybe, alts_of, stmt_then, SWait};
ghost use Rattle.collect_model.specs.Noting.{has_delay, own_note};
ghost use Rattle.collect_model.specs.Waiting.{alternative_told, next_delay, alternatives_told, else_told};
ghost use Rattle.collect_statements.specs.Waited.{alternative_list};
ghost use Rattle.collect_statements.specs.Looked.{teller_of};

use crate::Reporter;
use crate::kinds::{HAS_DELAY, HAS_ELSE};
use crate::noting::own_note;
use crate::serving::accept_told;
use ada_stmt_copy::building::{
    accept_alternative_of, delay_alternative_of, terminate_alternative_of, wait_of,
};
use ada_stmt_copy::expressions::copy_option;
use ada_tree::{Alt, AltKind, Memory, Span, Stmt};
use replay_asking::making::before;
use std::alloc::Global;
use tree_rewriting::making::{keep_alts, push_alt, some_stmts, take_stmts};

// The statements behind the k-th delay alternative, and the note in front of them.
fn delay_told(
    alloc: Global,
    x: &Reporter,
    stmts: Vec<Stmt>,
    k: u32,
    s: Span,
) -> Result<Vec<Stmt>, Memory>
    ensures { IfOk result (λ made. seen made.items ≡ stmt_then (own_note (teller_of x.now) s has_delay k) (seen stmts.items)) }
{
    before(alloc, own_note(alloc, x, HAS_DELAY, k, s), Ok(stmts))
}

// What stands in the place of an alternative, which is the k-th delay alternative if it is one. Its statements are taken from where they stand.
fn alternative_told(alloc: Global, x: &Reporter, alt: &mut Alt, k: u32) -> Result<Alt, Memory>
    ensures { IfOk result (λ made. plain_alt made ≡ alternative_told (teller_of x.now) (plain_alt alt.old) k) }
{
    let s = alt.span;
    let guard = copy_option(alloc, &alt.guard);
    match &mut alt.kind {
        AltKind::Accept { accept, stmts } => {
            let told = accept_told(alloc, x, accept, s);
            accept_alternative_of(guard, told, Ok(take_stmts(alloc, stmts)), s)
        }
        AltKind::Delay { thousandths, stmts } => {
            let behind = delay_told(alloc, x, take_stmts(alloc, stmts), k, s);
            delay_alternative_of(guard, *thousandths, behind, s)
        }
        AltKind::Terminate => terminate_alternative_of(guard, s),
    }
}

/// The number of the next delay alternative; want of memory where there is no such number.
pub fn next_delay(alt: &Alt, k: u32) -> Result<u32, Memory>
    ensures { IfOk result (λ next. next ≡ next_delay (plain_alt alt.now) k) }
{
    match &alt.kind {
        AltKind::Delay { .. } => match k.checked_add(1) {
            Some(next) => Ok(next),
            None => Err(Memory),
        },
        _ => Ok(k),
    }
}

// What stands in the place of alternatives goes behind others.
fn put_alternatives(
    alloc: Global,
    x: &Reporter,
    alts: &mut Vec<Alt>,
    out: &mut Vec<Alt>,
) -> Result<(), Memory>
    ensures { OnOk result (map plain_alt out.new.items ≡ map plain_alt out.old.items ++ alternative_list (teller_of x.now) (map plain_alt alts.old.items) 1) }
{
    let mut k = 1u32;
    for alt in alts.iter_mut() {
        let next = next_delay(alt, k)?;
        push_alt(out, alternative_told(alloc, x, alt, k))?;
        k = next;
    }
    Ok(())
}

// What stands in the place of alternatives.
fn alternatives_told(alloc: Global, x: &Reporter, alts: &mut Vec<Alt>) -> Result<Vec<Alt>, Memory>
    ensures { IfOk result (λ made. alts_of (map plain_alt made.items) ≡ alternatives_told (teller_of x.now) (alts_of (map plain_alt alts.old.items)) 1) }
{
    let mut made = Vec::new(alloc);
    let done = put_alternatives(alloc, x, alts, &mut made);
    keep_alts(made, done)
}

// What stands in the place of an else part.
fn else_told(
    alloc: Global,
    x: &Reporter,
    otherwise: Option<Vec<Stmt>>,
    s: Span,
) -> Result<Option<Vec<Stmt>>, Memory>
    ensures { IfOk result (λ made. seen_maybe made ≡ else_told (teller_of x.now) s (seen_maybe otherwise)) }
{
    match otherwise {
        None => Ok(None),
        Some(stmts) => {
            let note = own_note(alloc, x, HAS_ELSE, 0, s);
            some_stmts(before(alloc, note, Ok(stmts)))
        }
    }
}

/// The wait that stands in the place of a selective wait. The statements of its alternatives are taken from where they stand.
pub(crate) fn wait_told(
    alloc: Global,
    x: &Reporter,
    alts: &mut Vec<Alt>,
    otherwise: Option<Vec<Stmt>>,
    s: Span,
) -> Result<Stmt, Memory>
    ensures { IfOk result (λ made. plain_stmt made ≡ SWait (alternatives_told (teller_of x.now) (alts_of (map plain_alt alts.old.items)) 1) (else_told (teller_of x.now) s (seen_maybe otherwise)) s) }
{
    let told = alternatives_told(alloc, x, alts);
    let last = else_told(alloc, x, otherwise, s);
    wait_of(told, last, s)
}
