// Waits in which one alternative can be taken.

ghost use Rattle.std.specs.Prelude.{◌≡◌, ◌++◌, ◌+◌, IfOk, OnOk, map};
ghost use Rattle.ada_tree.specs.PlainStmt.{plain_alt, plain_stmt, alts_of, seen_maybe};
ghost use Rattle.ada_stmt_copy.specs.expressions.Parts.{OkWith};
ghost use Rattle.replay_statements.specs.waiting.Waited.{plain_pause, never_alt, select_of, pause_alt, pause_alts, pausing, never_or_terminate, passing};
ghost use Rattle.replay_asking.specs.Looked.{voice_of};

use crate::waiting::SeenPause;
use crate::waiting::guarding::never_so;
use ada_stmt_copy::building::{
    accept_alternative_of, accepting_of, delay_alternative_of, terminate_alternative_of, wait_of,
};
use ada_tree::{Alt, Memory, Span, Stmt};
use replay_asking::making::alts_before;
use replay_asking::{Speaker, word};
use std::alloc::Global;
use tree_rewriting::making::{
    keep_alts, null_stmt, one_alt, one_stmt, push_alt, some_expr, some_stmts,
};

// The alternative of an entry that nobody calls.
fn never_alt(alloc: Global, x: &Speaker, s: Span) -> Result<Alt, Memory>
    ensures { IfOk result (λ made. plain_alt made ≡ never_alt (voice_of x.now) s) }
{
    let accept = accepting_of(
        word(x.tables.added.never, s),
        Ok(None),
        Ok(Vec::new(alloc)),
        Ok(None),
        s,
    );
    accept_alternative_of(Ok(None), accept, Ok(Vec::new(alloc)), s)
}

// A wait for an entry that nobody calls, or for these alternatives.
fn select_of(
    alloc: Global,
    x: &Speaker,
    alts: Result<Vec<Alt>, Memory>,
    otherwise: Result<Option<Vec<Stmt>>, Memory>,
    s: Span,
) -> Result<Stmt, Memory>
    ensures { IfOk result (λ made. OkWith alts (λ a. OkWith otherwise (λ o. plain_stmt made ≡ select_of (voice_of x.now) s (alts_of (map plain_alt a.items)) (seen_maybe o)))) }
{
    wait_of(
        alts_before(alloc, never_alt(alloc, x, s), alts),
        otherwise,
        s,
    )
}

// The n-th delay alternative, where the k-th is waited for.
fn pause_alt(alloc: Global, pause: &SeenPause, k: u32, n: u32, s: Span) -> Result<Alt, Memory>
    ensures { IfOk result (λ made. plain_alt made ≡ pause_alt s k (plain_pause pause.now) n) }
{
    let guard = if n == k {
        Ok(None)
    } else {
        some_expr(Ok(never_so(s)))
    };
    delay_alternative_of(guard, pause.thousandths, Ok(Vec::new(alloc)), s)
}

// The next number; want of memory where there is none.
fn next(n: u32) -> Result<u32, Memory>
    ensures { IfOk result (λ m. m ≡ n + 1) }
{
    match n.checked_add(1) {
        Some(next) => Ok(next),
        None => Err(Memory),
    }
}

// The delay alternatives go behind others, those but the k-th with a guard that does not hold.
fn put_pauses(
    alloc: Global,
    pauses: &[SeenPause],
    k: u32,
    s: Span,
    out: &mut Vec<Alt>,
) -> Result<(), Memory>
    ensures { OnOk result (map plain_alt out.new.items ≡ map plain_alt out.old.items ++ pause_alts s k (map plain_pause pauses.now) 1) }
{
    let mut n = 1u32;
    for pause in pauses {
        push_alt(out, pause_alt(alloc, pause, k, n, s))?;
        n = next(n)?;
    }
    Ok(())
}

/// The wait for the k-th delay alternative.
pub(crate) fn pausing(
    alloc: Global,
    x: &Speaker,
    pauses: &[SeenPause],
    k: u32,
    s: Span,
) -> Result<Stmt, Memory>
    ensures { IfOk result (λ made. plain_stmt made ≡ pausing (voice_of x.now) s (map plain_pause pauses.now) k) }
{
    let mut alts = Vec::new(alloc);
    let done = put_pauses(alloc, pauses, k, s, &mut alts);
    select_of(alloc, x, keep_alts(alts, done), Ok(None), s)
}

/// The wait for the end of the program.
pub(crate) fn ending(alloc: Global, x: &Speaker, s: Span) -> Result<Stmt, Memory>
    ensures { IfOk result (λ made. plain_stmt made ≡ never_or_terminate (voice_of x.now) s) }
{
    let alts = one_alt(alloc, terminate_alternative_of(Ok(None), s));
    select_of(alloc, x, alts, Ok(None), s)
}

/// The wait that takes its else part.
pub(crate) fn passing(alloc: Global, x: &Speaker, s: Span) -> Result<Stmt, Memory>
    ensures { IfOk result (λ made. plain_stmt made ≡ passing (voice_of x.now) s) }
{
    let nothing = some_stmts(one_stmt(alloc, Ok(null_stmt(s))));
    select_of(alloc, x, Ok(Vec::new(alloc)), nothing, s)
}
