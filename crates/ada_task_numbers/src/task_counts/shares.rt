// How much of the bodies the rewriters would copy. Lists are gone through by loops, so recursion follows nesting alone.
#![tactic(auto, using(crate::proofs::task_counts::Sharing::sharing, ada_tree::proofs::Rows::rows))]

ghost use Rattle.std.specs.Prelude.{◌≡◌, ◌-◌, map, option_map, Some, IfOk, OnOk};
ghost use Rattle.ada_tree.specs.declared.naming.NameId.{NameId};
ghost use Rattle.ada_tree.specs.PlainExpr.{plain_expr};
ghost use Rattle.ada_tree.specs.PlainStmt.{plain_callee, plain_accept, plain_alt, plain_alt_kind, plain_arm, plain_case_arm, plain_handler, plain_body, plain_stmt, stmts_of, alts_of, arms_of, case_arms_of, handlers_of};
ghost use Rattle.ada_tree.specs.PlainDecl.{plain_decl, decls_of};
ghost use Rattle.syn_event.specs.Callees.{stmt_callees, stmts_callees, accept_callees, alts_callees, alt_callees, arms_callees, case_arms_callees, body_callees, handlers_callees};
ghost use Rattle.syn_event.specs.Copying.{source_length};
ghost use Rattle.ada_task_numbers.specs.task_objects.PlainNames.{plain_named_tasks};
ghost use Rattle.ada_task_numbers.specs.task_counts.inner.Copied.{own_callees, inner_callees, rest_callees, each_alt};
ghost use Rattle.ada_task_numbers.specs.task_counts.inner.Shares.{rate_of, index_rate, length_among, shared, array_lengths, share_of, with_share, body_shares};

use crate::task_counts::counts::task_count;
use crate::task_objects::NamedTasks;
use ada_check_rules::rules::{plus, product};
use ada_scopes::values::static_values::is_static;
use ada_tree::{
    Accept, Alt, AltKind, Arm, Body, Callee, CaseArm, Decl, DeclKind, Expr, Handler, NameId, Span,
    Stmt, StmtKind, Types,
};
use scoped_names::ScopedNames;
use std::alloc::{AllocError, Global};
use std::marker::Model;

/// By what the callees of a body are counted: the types, and how many tasks each name stands for.
#[derive(Drop)]
pub(crate) struct Rates<'t> {
    types: &'t Types,
    rows: ScopedNames<u64>,
}

impl<'t> Model for Rates<'t> {
    ghost use Rattle.ada_task_numbers.specs.task_counts.inner.Shares.{Rates};

    ghost Value = { Rates };

    ghost view = { λ a. record { types = a.types.now; rows = a.rows } };
}

impl<'t> Rates<'t> {
    /// Those of the names that stand for tasks.
    pub(crate) fn new(
        alloc: Global,
        types: &'t Types,
        parts: &[NamedTasks],
    ) -> Result<Self, AllocError>
        ensures { IfOk result (λ rates. rates ≡ record { types = types.now; rows = array_lengths types.now (map plain_named_tasks parts.now) }) }
    {
        let mut rows = ScopedNames::new(alloc);
        for done in 0..parts.len() {
            let place = parts.len() - 1 - done;
            let part = &parts[place];
            rows.declare(part.name.name.0, task_count(types, part))?;
        }
        Ok(Rates { types, rows })
    }

    // How many tasks a name stands for; none where it is that of no task.
    fn length(&self, id: NameId) -> u64
        ensures { result ≡ length_among self.now.rows id }
    {
        match self.rows.meaning(id.0) {
            Some(length) => *length,
            None => 0,
        }
    }

    // What an index that is not static copies.
    fn index_rate(&self, id: NameId, index: &Option<Expr>) -> u64
        ensures { result ≡ index_rate self.now id (option_map plain_expr index.now) }
    {
        match index {
            Some(index) => {
                if is_static(index, self.types) {
                    0
                } else {
                    product(100, self.length(id))
                }
            }
            None => 0,
        }
    }

    // What a callee copies.
    fn callee(&self, callee: &Callee) -> u64
        ensures { result ≡ rate_of self.now (plain_callee callee.now) }
    {
        self.index_rate(callee.name.name, &callee.index)
    }
}

// The names of an abort statement.
fn names_share(rates: &Rates, names: &[Callee]) -> u64
    ensures { result ≡ shared rates.now (map plain_callee names.now) }
{
    let mut share = 0;
    for name in names {
        share = plus(share, rates.callee(name));
    }
    share
}

// The callees of a statement itself.
fn own_share(rates: &Rates, stmt: &Stmt) -> u64
    ensures { result ≡ shared rates.now (own_callees (plain_stmt stmt.now)) }
{
    match &stmt.kind {
        StmtKind::Abort { names } => names_share(rates, names),
        StmtKind::Call(call) => rates.callee(&call.task),
        StmtKind::Conditional { call, .. } => rates.callee(&call.task),
        StmtKind::Timed { call, .. } => rates.callee(&call.task),
        _ => 0,
    }
}

#[cycle(shares)]
fn accept_share(rates: &Rates, accept: &Accept) -> u64
    ensures { result ≡ shared rates.now (accept_callees (plain_accept accept.now)) }
{
    match &accept.stmts {
        Some(list) => stmts_share(rates, list),
        None => 0,
    }
}

// An alternative without its guard.
#[cycle(shares)]
fn kind_share(rates: &Rates, kind: &AltKind) -> u64
    ensures { result ≡ shared rates.now (alt_callees (plain_alt_kind kind.now)) }
{
    match kind {
        AltKind::Accept { accept, stmts } => {
            let inner = accept_share(rates, accept);
            plus(inner, stmts_share(rates, stmts))
        }
        AltKind::Delay { stmts, .. } => stmts_share(rates, stmts),
        AltKind::Terminate => 0,
    }
}

#[cycle(shares)]
fn alt_share(rates: &Rates, alt: &Alt) -> u64
    ensures { result ≡ shared rates.now (each_alt (plain_alt alt.now)) }
{
    kind_share(rates, &alt.kind)
}

#[cycle(shares)]
fn alts_share(rates: &Rates, alts: &[Alt]) -> u64
    ensures { result ≡ shared rates.now (alts_callees (alts_of (map plain_alt alts.now))) }
{
    let mut share = 0;
    for alt in alts {
        share = plus(share, alt_share(rates, alt));
    }
    share
}

#[cycle(shares)]
fn arms_share(rates: &Rates, arms: &[Arm]) -> u64
    ensures { result ≡ shared rates.now (arms_callees (arms_of (map plain_arm arms.now))) }
{
    let mut share = 0;
    for arm in arms {
        share = plus(share, stmts_share(rates, &arm.stmts));
    }
    share
}

#[cycle(shares)]
fn case_arms_share(rates: &Rates, arms: &[CaseArm]) -> u64
    ensures { result ≡ shared rates.now (case_arms_callees (case_arms_of (map plain_case_arm arms.now))) }
{
    let mut share = 0;
    for arm in arms {
        share = plus(share, stmts_share(rates, &arm.stmts));
    }
    share
}

#[cycle(shares)]
fn handlers_share(rates: &Rates, handlers: &[Handler]) -> u64
    ensures { result ≡ shared rates.now (handlers_callees (handlers_of (map plain_handler handlers.now))) }
{
    let mut share = 0;
    for handler in handlers {
        share = plus(share, stmts_share(rates, &handler.stmts));
    }
    share
}

/// What the callees of a body copy.
#[cycle(shares)]
pub(crate) fn body_share(rates: &Rates, body: &Body) -> u64
    ensures { result ≡ shared rates.now (body_callees (plain_body body.now)) }
{
    let inner = stmts_share(rates, &body.stmts);
    plus(inner, handlers_share(rates, &body.handlers))
}

// The statements that come first in a statement.
#[cycle(shares)]
fn inner_share(rates: &Rates, stmt: &Stmt) -> u64
    ensures { result ≡ shared rates.now (inner_callees (plain_stmt stmt.now)) }
{
    match &stmt.kind {
        StmtKind::Accept(accept) => accept_share(rates, accept),
        StmtKind::Wait { alts, .. } => alts_share(rates, alts),
        StmtKind::Conditional { behind, .. } => stmts_share(rates, behind),
        StmtKind::Timed { behind, .. } => stmts_share(rates, behind),
        StmtKind::If { arms, .. } => arms_share(rates, arms),
        StmtKind::Case { arms, .. } => case_arms_share(rates, arms),
        StmtKind::Block(body) => body_share(rates, body),
        StmtKind::Loop { stmts, .. } => stmts_share(rates, stmts),
        _ => 0,
    }
}

// The statements behind those: of an else part, of a delay, for other choices.
#[cycle(shares)]
fn rest_share(rates: &Rates, stmt: &Stmt) -> u64
    ensures { result ≡ shared rates.now (rest_callees (plain_stmt stmt.now)) }
{
    match &stmt.kind {
        StmtKind::Conditional { otherwise, .. } => stmts_share(rates, otherwise),
        StmtKind::Timed { after, .. } => stmts_share(rates, after),
        StmtKind::Wait {
            otherwise: Some(list),
            ..
        } => stmts_share(rates, list),
        StmtKind::If {
            otherwise: Some(list),
            ..
        } => stmts_share(rates, list),
        StmtKind::Case {
            others: Some(list),
            ..
        } => stmts_share(rates, list),
        _ => 0,
    }
}

#[cycle(shares)]
fn stmt_share(rates: &Rates, stmt: &Stmt) -> u64
    ensures { result ≡ shared rates.now (stmt_callees (plain_stmt stmt.now)) }
{
    let inner = plus(own_share(rates, stmt), inner_share(rates, stmt));
    plus(inner, rest_share(rates, stmt))
}

#[cycle(shares)]
fn stmts_share(rates: &Rates, list: &[Stmt]) -> u64
    ensures { result ≡ shared rates.now (stmts_callees (stmts_of (map plain_stmt list.now))) }
{
    let mut share = 0;
    for stmt in list {
        share = plus(share, stmt_share(rates, stmt));
    }
    share
}

// The length of a part of the source.
fn source_length(span: Span) -> u64
    ensures { result ≡ source_length span }
{
    if span.start < span.end {
        (span.end - span.start) as u64
    } else {
        0
    }
}

// Keeps what a declaration copies, where it is a body.
fn add_share(shares: &mut ScopedNames<u64>, rates: &Rates, decl: &Decl) -> Result<(), AllocError>
    ensures { OnOk result (shares.new ≡ with_share rates.now (plain_decl decl.now) shares.old) }
{
    match &decl.kind {
        DeclKind::TaskBody { name, body, .. } => {
            let share = plus(source_length(decl.span), body_share(rates, body));
            shares.declare(name.name.0, share)
        }
        _ => Ok(()),
    }
}

/// What each body copies, by the names of their tasks and task types.
#[derive(Drop)]
pub(crate) struct BodyShares {
    shares: ScopedNames<u64>,
}

impl Model for BodyShares {
    ghost use Rattle.std.specs.Prelude.{ℕ, List};

    ghost Value = { List (ℕ × ℕ) };

    ghost view = { λ a. a.shares };
}

impl BodyShares {
    /// Those of the bodies among declarations.
    pub(crate) fn new(alloc: Global, rates: &Rates, decls: &[Decl]) -> Result<Self, AllocError>
        ensures { IfOk result (λ shares. shares ≡ body_shares rates.now (decls_of (map plain_decl decls.now))) }
    {
        let mut shares = ScopedNames::new(alloc);
        for done in 0..decls.len() {
            let place = decls.len() - 1 - done;
            let decl = &decls[place];
            add_share(&mut shares, rates, decl)?;
        }
        Ok(BodyShares { shares })
    }

    /// That of the body of a task or task type; nothing where there is none.
    pub(crate) fn of(&self, id: NameId) -> u64
        ensures { result ≡ share_of self.now id }
    {
        match self.shares.meaning(id.0) {
            Some(share) => *share,
            None => 0,
        }
    }
}
