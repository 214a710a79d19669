// The rewriter.
#![tactic(auto, using(ada_tree::proofs::Rows::rows, tree_rewriting::proofs::walking::Rows::walked))]

ghost use Rattle.std.specs.Prelude.{◌≡◌, IfOk, OnOk, ◌+◌, map};
ghost use Rattle.ada_tree.specs.PlainStmt.{plain_callee, plain_call, plain_accept, plain_alt, alts_of, plain_stmt, seen, seen_maybe};
ghost use Rattle.task_model.specs.Frames.{in_front};
ghost use Rattle.collect_model.specs.aborts.Places.{with_place};
ghost use Rattle.collect_model.specs.aborts.AbortStmts.{abort_image};
ghost use Rattle.collect_abort.specs.Looked.{told_of};
ghost use Rattle.collect_abort.specs.Rules.{abort_told, accept_told, call_told, choice_told, delay_told, image, wait_told};

use crate::calls::{conditional_image, plain_image, timed_image};
use crate::kinds::AT_ABORT;
use crate::services::accept_image;
use crate::teller::AbortReporter;
use crate::waits::wait_image;
use ada_tree::{Accept, Alt, Call, Callee, Memory, Span, Stmt, StmtKind};
use collect_statements::{own_note, task_of};
use normal_lookups::pieces::following;
use replay_asking::making::put_list;
use std::alloc::Global;
use tree_rewriting::making::{one_stmt, take_maybe, take_stmts};
use tree_rewriting::walking::{Rewriter, push_taken};

/// The rewriter of the statements of a unit.
#[derive(Drop)]
pub(crate) struct Aborting<'a> {
    pub alloc: Global,
    pub reporter: AbortReporter<'a>,
}

/// How many places where calls are accepted it has come by.
#[derive(Drop)]
pub(crate) struct Places {
    pub count: u32,
}

// How many places there are with a statement, without its parts.
pub(crate) fn with_place(count: u32, stmt: &Stmt) -> Result<u32, Memory>
    ensures { IfOk result (λ more. more ≡ with_place count (plain_stmt stmt.now)) }
{
    match &stmt.kind {
        StmtKind::Accept(_) => following(count),
        StmtKind::Wait { .. } => following(count),
        _ => Ok(count),
    }
}

impl<'a> Rewriter for Aborting<'a> {
    type Track = Places;

    ghost use Rattle.std.specs.Prelude.{ℕ};
    ghost use Rattle.collect_abort.specs.Rules.{rule_of};

    ghost State = { ℕ };

    ghost state = { λ t. t.count };

    ghost rule = { λ r. rule_of (told_of r.reporter) };

    ghost fits = { λ r t. Unit {0} };

    fn enter_stmt(&self, track: &mut Places, stmt: &Stmt) -> Result<u32, Memory> {
        let number = track.count;
        track.count = with_place(number, stmt)?;
        Ok(number)
    }

    fn enter_alternative(
        &self,
        track: &mut Places,
        _alt: &Alt,
        _out: &mut Vec<Stmt>,
    ) -> Result<u32, Memory> {
        Ok(track.count)
    }

    fn leave_alternative(
        &self,
        _track: &Places,
        _number: u32,
        _alt: &mut Alt,
    ) -> Result<(), Memory> {
        Ok(())
    }

    fn replace_stmt(
        &self,
        _track: &Places,
        number: u32,
        stmt: &mut Stmt,
        out: &mut Vec<Stmt>,
    ) -> Result<(), Memory> {
        put_image(self.alloc, &self.reporter, following(number)?, stmt, out)
    }
}

// What stands in the place of a plain call goes behind others.
fn put_call(
    alloc: Global,
    x: &AbortReporter,
    call: &Call,
    s: Span,
    out: &mut Vec<Stmt>,
) -> Result<(), Memory>
    ensures { OnOk result (seen out.new.items ≡ in_front (seen out.old.items) (call_told (told_of x.now) s (plain_call call.now))) }
{
    put_list(out, plain_image(alloc, &x.reporter, call, s))
}

// The same of a conditional call.
fn put_conditional(
    alloc: Global,
    x: &AbortReporter,
    call: &Call,
    behind: Vec<Stmt>,
    otherwise: Vec<Stmt>,
    s: Span,
    out: &mut Vec<Stmt>,
) -> Result<(), Memory>
    ensures { OnOk result (seen out.new.items ≡ in_front (seen out.old.items) (choice_told (told_of x.now) s (plain_call call.now) (seen behind.items) (seen otherwise.items))) }
{
    put_list(
        out,
        conditional_image(alloc, &x.reporter, call, behind, otherwise, s),
    )
}

// The same of a timed call.
fn put_timed(
    alloc: Global,
    x: &AbortReporter,
    call: &Call,
    behind: Vec<Stmt>,
    thousandths: u32,
    after: Vec<Stmt>,
    s: Span,
    out: &mut Vec<Stmt>,
) -> Result<(), Memory>
    ensures { OnOk result (seen out.new.items ≡ in_front (seen out.old.items) (delay_told (told_of x.now) s (plain_call call.now) (seen behind.items) thousandths (seen after.items))) }
{
    put_list(
        out,
        timed_image(alloc, &x.reporter, call, behind, thousandths, after, s),
    )
}

// The same of an accept statement at a place. Its statements are taken from where they stand.
fn put_accept(
    alloc: Global,
    x: &AbortReporter,
    place: u32,
    accept: &mut Accept,
    s: Span,
    out: &mut Vec<Stmt>,
) -> Result<(), Memory>
    ensures { OnOk result (seen out.new.items ≡ in_front (seen out.old.items) (accept_told (told_of x.now) s place (plain_accept accept.old))) }
{
    put_list(out, accept_image(alloc, x, place, accept, s))
}

// The same of a selective wait at a place. Its statements are taken from where they stand.
fn put_wait(
    alloc: Global,
    x: &AbortReporter,
    place: u32,
    alts: &mut Vec<Alt>,
    otherwise: Option<Vec<Stmt>>,
    s: Span,
    out: &mut Vec<Stmt>,
) -> Result<(), Memory>
    ensures { OnOk result (seen out.new.items ≡ in_front (seen out.old.items) (wait_told (told_of x.now) s place (alts_of (map plain_alt alts.old.items)) (seen_maybe otherwise))) }
{
    put_list(out, wait_image(alloc, x, place, alts, otherwise, s))
}

// What stands in the place of the abort of one task: the recorder is told of it.
fn abort_image(
    alloc: Global,
    x: &AbortReporter,
    callee: &Callee,
    s: Span,
) -> Result<Vec<Stmt>, Memory>
    ensures { IfOk result (λ made. seen made.items ≡ abort_image (told_of x.now).teller s (plain_callee callee.now)) }
{
    let task = task_of(x.reporter.numbers, callee.name.name);
    one_stmt(alloc, own_note(alloc, &x.reporter, AT_ABORT, task, s))
}

// That goes behind others.
fn put_abort(
    alloc: Global,
    x: &AbortReporter,
    callee: &Callee,
    s: Span,
    out: &mut Vec<Stmt>,
) -> Result<(), Memory>
    ensures { OnOk result (seen out.new.items ≡ in_front (seen out.old.items) (abort_told (told_of x.now) s (plain_callee callee.now))) }
{
    put_list(out, abort_image(alloc, x, callee, s))
}

// What stands in the place of a statement, at a place if it accepts, goes behind others. The statement is taken apart.
fn put_image(
    alloc: Global,
    x: &AbortReporter,
    place: u32,
    stmt: &mut Stmt,
    out: &mut Vec<Stmt>,
) -> Result<(), Memory>
    ensures { OnOk result (seen out.new.items ≡ in_front (seen out.old.items) (image (told_of x.now) place (plain_stmt stmt.old))) }
{
    let s = stmt.span;
    match &mut stmt.kind {
        StmtKind::Call(call) => put_call(alloc, x, call, s, out),
        StmtKind::Conditional {
            call,
            behind,
            otherwise,
        } => {
            let behind = take_stmts(alloc, behind);
            let otherwise = take_stmts(alloc, otherwise);
            put_conditional(alloc, x, call, behind, otherwise, s, out)
        }
        StmtKind::Timed {
            call,
            behind,
            thousandths,
            after,
        } => {
            let behind = take_stmts(alloc, behind);
            let after = take_stmts(alloc, after);
            put_timed(alloc, x, call, behind, *thousandths, after, s, out)
        }
        StmtKind::Accept(accept) => put_accept(alloc, x, place, accept, s, out),
        StmtKind::Wait { alts, otherwise } => {
            let otherwise = take_maybe(otherwise);
            put_wait(alloc, x, place, alts, otherwise, s, out)
        }
        StmtKind::Abort { names } => match names.as_slice() {
            [callee] => put_abort(alloc, x, callee, s, out),
            _ => push_taken(out, stmt),
        },
        _ => push_taken(out, stmt),
    }
}
