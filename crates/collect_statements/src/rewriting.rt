// The rewriter.
#![tactic(auto, using(ada_tree::proofs::Rows::rows, tree_rewriting::proofs::walking::Rows::walked))]

ghost use Rattle.std.specs.Prelude.{◌≡◌, ℕ, IfOk, OnOk};
ghost use Rattle.ada_tree.specs.PlainStmt.{plain_accept, plain_call, plain_stmt, seen};
ghost use Rattle.task_model.specs.Frames.{in_front};
ghost use Rattle.collect_model.specs.Serving.{accept_image};
ghost use Rattle.collect_statements.specs.Rules.{call_image, choice_image, delay_image, image, rule_of};
ghost use Rattle.collect_statements.specs.Looked.{teller_of};

use crate::Reporter;
use crate::parts::{conditional_image, plain_image, timed_image};
use crate::serving::accept_told;
use crate::waiting::wait_told;
use ada_stmt_copy::building::accept_of;
use ada_tree::{Accept, Alt, Call, Memory, Span, Stmt, StmtKind};
use replay_asking::making::put_list;
use std::alloc::Global;
use tree_rewriting::making::{one_stmt, take_maybe, take_stmts};
use tree_rewriting::walking::{Rewriter, push_taken};

/// The rewriter of the statements of a unit.
#[derive(Drop)]
pub(crate) struct Collecting<'a> {
    pub alloc: Global,
    pub reporter: Reporter<'a>,
}

/// It keeps nothing on its way.
#[derive(Drop)]
pub(crate) struct Nothing;

impl<'a> Rewriter for Collecting<'a> {
    type Track = Nothing;

    ghost State = { ℕ };

    ghost state = { λ _. 0 };

    ghost rule = { λ r. rule_of (teller_of r.reporter) };

    ghost fits = { λ r n. Unit {0} };

    fn enter_stmt(&self, _track: &mut Nothing, _stmt: &Stmt) -> Result<u32, Memory> {
        Ok(0)
    }

    fn enter_alternative(
        &self,
        _track: &mut Nothing,
        _alt: &Alt,
        _out: &mut Vec<Stmt>,
    ) -> Result<u32, Memory> {
        Ok(0)
    }

    fn leave_alternative(
        &self,
        _track: &Nothing,
        _number: u32,
        _alt: &mut Alt,
    ) -> Result<(), Memory> {
        Ok(())
    }

    fn replace_stmt(
        &self,
        _track: &Nothing,
        _number: u32,
        stmt: &mut Stmt,
        out: &mut Vec<Stmt>,
    ) -> Result<(), Memory> {
        put_image(self.alloc, &self.reporter, stmt, out)
    }
}

// What stands in the place of an accept statement.
fn accept_image(
    alloc: Global,
    x: &Reporter,
    accept: &mut Accept,
    s: Span,
) -> Result<Vec<Stmt>, Memory>
    ensures { IfOk result (λ made. seen made.items ≡ accept_image (teller_of x.now) s (plain_accept accept.old)) }
{
    one_stmt(alloc, accept_of(accept_told(alloc, x, accept, s), s))
}

// What stands in the place of a plain call goes behind others.
fn put_call(
    alloc: Global,
    x: &Reporter,
    call: &Call,
    s: Span,
    out: &mut Vec<Stmt>,
) -> Result<(), Memory>
    ensures { OnOk result (seen out.new.items ≡ in_front (seen out.old.items) (call_image (teller_of x.now) s (plain_call call.now))) }
{
    put_list(out, plain_image(alloc, x, call, s))
}

// The same of a conditional call.
fn put_conditional(
    alloc: Global,
    x: &Reporter,
    call: &Call,
    behind: Vec<Stmt>,
    otherwise: Vec<Stmt>,
    s: Span,
    out: &mut Vec<Stmt>,
) -> Result<(), Memory>
    ensures { OnOk result (seen out.new.items ≡ in_front (seen out.old.items) (choice_image (teller_of x.now) s (plain_call call.now) (seen behind.items) (seen otherwise.items))) }
{
    put_list(out, conditional_image(alloc, x, call, behind, otherwise, s))
}

// The same of a timed call.
fn put_timed(
    alloc: Global,
    x: &Reporter,
    call: &Call,
    behind: Vec<Stmt>,
    thousandths: u32,
    after: Vec<Stmt>,
    s: Span,
    out: &mut Vec<Stmt>,
) -> Result<(), Memory>
    ensures { OnOk result (seen out.new.items ≡ in_front (seen out.old.items) (delay_image (teller_of x.now) s (plain_call call.now) (seen behind.items) thousandths (seen after.items))) }
{
    put_list(
        out,
        timed_image(alloc, x, call, behind, thousandths, after, s),
    )
}

// What stands in the place of a statement goes behind others. The statement is taken apart.
fn put_image(
    alloc: Global,
    x: &Reporter,
    stmt: &mut Stmt,
    out: &mut Vec<Stmt>,
) -> Result<(), Memory>
    ensures { OnOk result (seen out.new.items ≡ in_front (seen out.old.items) (image (teller_of x.now) (plain_stmt stmt.old))) }
{
    let s = stmt.span;
    match &mut stmt.kind {
        StmtKind::Call(call) => put_call(alloc, x, call, s, out),
        StmtKind::Conditional {
            call,
            behind,
            otherwise,
        } => {
            let behind = take_stmts(alloc, behind);
            let otherwise = take_stmts(alloc, otherwise);
            put_conditional(alloc, x, call, behind, otherwise, s, out)
        }
        StmtKind::Timed {
            call,
            behind,
            thousandths,
            after,
        } => {
            let behind = take_stmts(alloc, behind);
            let after = take_stmts(alloc, after);
            put_timed(alloc, x, call, behind, *thousandths, after, s, out)
        }
        StmtKind::Accept(accept) => put_list(out, accept_image(alloc, x, accept, s)),
        StmtKind::Wait { alts, otherwise } => {
            let otherwise = take_maybe(otherwise);
            let told = wait_told(alloc, x, alts, otherwise, s);
            put_list(out, one_stmt(alloc, told))
        }
        _ => push_taken(out, stmt),
    }
}
