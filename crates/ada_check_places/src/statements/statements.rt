// What the rules refuse first in statements. Lists are gone through by loops, so recursion follows nesting alone.
#![tactic(auto, using(ada_check_rules::proofs::rules::Meeting::meeting, ada_tree::proofs::Rows::rows))]

ghost use Rattle.std.specs.Prelude.{◌≡◌, OnOk, IfOk, map, option_map};
ghost use Rattle.ada_tree.specs.PlainStmt.{plain_scheme, plain_accept, plain_alt, plain_alt_kind, plain_arm, plain_case_arm, plain_handler, plain_body, plain_stmt, stmts_of, alts_of, arms_of, case_arms_of, handlers_of};
ghost use Rattle.syn_event.specs.CheckSites.{in_loop, alts_sites, arms_sites, case_arms_sites, body_sites, handlers_sites, stmts_sites};
ghost use Rattle.ada_check_rules.specs.rules.RefusedFirst.{refused_first};
ghost use Rattle.ada_check_places.specs.statements.inner.Walked.{within_met, inner_met, rest_met, kind_met, alt_met, stmt_met};

use crate::parts::{deeper, refuse_deep, walk_choices, walk_expr};
use crate::statements::single_statements::{walk_alt_own, walk_own};
use ada_check_rules::rules::{Refusal, Standard, first};
use ada_check_rules::scopes::{CheckScopes, declare_formals, declare_parameter};
use ada_tree::{Accept, Alt, AltKind, Arm, Body, CaseArm, Handler, Scheme, Stmt, StmtKind, Word};
use std::alloc::AllocError;

// The statements of an accept, which see its formals.
#[cycle(statements)]
fn walk_within(
    around: &mut CheckScopes,
    by: &Standard,
    k: u32,
    accept: &Accept,
) -> Result<Option<Refusal>, AllocError>
    ensures kept { OnOk result (around.new ≡ around.old) }
    ensures told { IfOk result (λ r. r ≡ within_met by.now around.old k (plain_accept accept.now)) }
{
    match &accept.stmts {
        Some(list) => {
            let inner = deeper(k)?;
            let outside = around.enter_accept(accept.entry.name)?;
            declare_formals(around, &accept.formals)?;
            let refusal = walk_stmts(around, by, inner, list)?;
            around.leave_accept(outside);
            Ok(refusal)
        }
        None => Ok(None),
    }
}

// The statements in an alternative.
#[cycle(statements)]
fn walk_kind(
    around: &mut CheckScopes,
    by: &Standard,
    k: u32,
    kind: &AltKind,
) -> Result<Option<Refusal>, AllocError>
    ensures kept { OnOk result (around.new ≡ around.old) }
    ensures told { IfOk result (λ r. r ≡ kind_met by.now around.old k (plain_alt_kind kind.now)) }
{
    match kind {
        AltKind::Accept { accept, stmts } => {
            let within = walk_within(around, by, k, accept)?;
            let behind = walk_stmts(around, by, k, stmts)?;
            Ok(first(within, behind))
        }
        AltKind::Delay { stmts, .. } => walk_stmts(around, by, k, stmts),
        AltKind::Terminate => Ok(None),
    }
}

#[cycle(statements)]
fn walk_alt(
    around: &mut CheckScopes,
    by: &Standard,
    k: u32,
    alt: &Alt,
) -> Result<Option<Refusal>, AllocError>
    ensures kept { OnOk result (around.new ≡ around.old) }
    ensures told { IfOk result (λ r. r ≡ alt_met by.now around.old k (plain_alt alt.now)) }
{
    let own = walk_alt_own(around, by, k, alt)?;
    let inner = walk_kind(around, by, deeper(k)?, &alt.kind)?;
    Ok(first(own, inner))
}

#[cycle(statements)]
fn walk_alts(
    around: &mut CheckScopes,
    by: &Standard,
    k: u32,
    alts: &[Alt],
) -> Result<Option<Refusal>, AllocError>
    ensures kept { OnOk result (around.new ≡ around.old) }
    ensures told { IfOk result (λ r. r ≡ refused_first by.now (alts_sites around.old k (alts_of (map plain_alt alts.now)))) }
{
    let mut refusal = None;
    for alt in alts {
        let found = walk_alt(around, by, k, alt)?;
        refusal = first(refusal, found);
    }
    Ok(refusal)
}

// Conditions, each with its statements.
#[cycle(statements)]
fn walk_arms(
    around: &mut CheckScopes,
    by: &Standard,
    k: u32,
    arms: &[Arm],
) -> Result<Option<Refusal>, AllocError>
    ensures kept { OnOk result (around.new ≡ around.old) }
    ensures told { IfOk result (λ r. r ≡ refused_first by.now (arms_sites around.old k (arms_of (map plain_arm arms.now)))) }
{
    let mut refusal = None;
    for arm in arms {
        let test = walk_expr(around, by, k, &arm.test)?;
        let behind = walk_stmts(around, by, k, &arm.stmts)?;
        let found = first(test, behind);
        refusal = first(refusal, found);
    }
    Ok(refusal)
}

// The choices of each `when`, with its statements.
#[cycle(statements)]
fn walk_case_arms(
    around: &mut CheckScopes,
    by: &Standard,
    k: u32,
    arms: &[CaseArm],
) -> Result<Option<Refusal>, AllocError>
    ensures kept { OnOk result (around.new ≡ around.old) }
    ensures told { IfOk result (λ r. r ≡ refused_first by.now (case_arms_sites around.old k (case_arms_of (map plain_case_arm arms.now)))) }
{
    let mut refusal = None;
    for arm in arms {
        let choices = walk_choices(around, by, k, &arm.choices)?;
        let behind = walk_stmts(around, by, k, &arm.stmts)?;
        let found = first(choices, behind);
        refusal = first(refusal, found);
    }
    Ok(refusal)
}

#[cycle(statements)]
fn walk_handlers(
    around: &mut CheckScopes,
    by: &Standard,
    k: u32,
    handlers: &[Handler],
) -> Result<Option<Refusal>, AllocError>
    ensures kept { OnOk result (around.new ≡ around.old) }
    ensures told { IfOk result (λ r. r ≡ refused_first by.now (handlers_sites around.old k (handlers_of (map plain_handler handlers.now)))) }
{
    let mut refusal = None;
    for handler in handlers {
        let deep = refuse_deep(by, k, handler.span);
        let inner = deeper(k)?;
        let before = around.enter_handler();
        let behind = walk_stmts(around, by, inner, &handler.stmts)?;
        around.leave_handler(before);
        let found = first(deep, behind);
        refusal = first(refusal, found);
    }
    Ok(refusal)
}

// The statements of a loop, which see its parameter.
#[cycle(statements)]
fn walk_loop(
    around: &mut CheckScopes,
    by: &Standard,
    k: u32,
    name: Option<Word>,
    scheme: &Option<Scheme>,
    list: &[Stmt],
) -> Result<Option<Refusal>, AllocError>
    ensures kept { OnOk result (around.new ≡ around.old) }
    ensures told { IfOk result (λ r. r ≡ refused_first by.now (stmts_sites (in_loop around.old name (option_map plain_scheme scheme.now)) k (stmts_of (map plain_stmt list.now)))) }
{
    let count = around.enter_loop(name)?;
    declare_parameter(around, scheme)?;
    let inner = walk_stmts(around, by, k, list)?;
    around.leave_loop(count);
    Ok(inner)
}

// The statements that come first in a statement.
#[cycle(statements)]
fn walk_inner(
    around: &mut CheckScopes,
    by: &Standard,
    k: u32,
    stmt: &Stmt,
) -> Result<Option<Refusal>, AllocError>
    ensures kept { OnOk result (around.new ≡ around.old) }
    ensures told { IfOk result (λ r. r ≡ inner_met by.now around.old k (plain_stmt stmt.now)) }
{
    let inner = deeper(k)?;
    match &stmt.kind {
        StmtKind::Accept(accept) => walk_within(around, by, k, accept),
        StmtKind::Wait { alts, .. } => walk_alts(around, by, inner, alts),
        StmtKind::Conditional { behind, .. } => walk_stmts(around, by, inner, behind),
        StmtKind::Timed { behind, .. } => walk_stmts(around, by, inner, behind),
        StmtKind::If { arms, .. } => walk_arms(around, by, inner, arms),
        StmtKind::Case { arms, .. } => walk_case_arms(around, by, inner, arms),
        StmtKind::Block(body) => walk_stmts(around, by, inner, &body.stmts),
        StmtKind::Loop {
            name,
            scheme,
            stmts,
        } => walk_loop(around, by, inner, *name, scheme, stmts),
        _ => Ok(None),
    }
}

// The statements behind those: of an else part, of a delay, for other choices, of handlers.
#[cycle(statements)]
fn walk_rest(
    around: &mut CheckScopes,
    by: &Standard,
    k: u32,
    stmt: &Stmt,
) -> Result<Option<Refusal>, AllocError>
    ensures kept { OnOk result (around.new ≡ around.old) }
    ensures told { IfOk result (λ r. r ≡ rest_met by.now around.old k (plain_stmt stmt.now)) }
{
    let inner = deeper(k)?;
    match &stmt.kind {
        StmtKind::Conditional { otherwise, .. } => walk_stmts(around, by, inner, otherwise),
        StmtKind::Timed { after, .. } => walk_stmts(around, by, inner, after),
        StmtKind::Block(body) => walk_handlers(around, by, inner, &body.handlers),
        StmtKind::Wait {
            otherwise: Some(list),
            ..
        } => walk_stmts(around, by, inner, list),
        StmtKind::If {
            otherwise: Some(list),
            ..
        } => walk_stmts(around, by, inner, list),
        StmtKind::Case {
            others: Some(list),
            ..
        } => walk_stmts(around, by, inner, list),
        _ => Ok(None),
    }
}

#[cycle(statements)]
fn walk_stmt(
    around: &mut CheckScopes,
    by: &Standard,
    k: u32,
    stmt: &Stmt,
) -> Result<Option<Refusal>, AllocError>
    ensures kept { OnOk result (around.new ≡ around.old) }
    ensures told { IfOk result (λ r. r ≡ stmt_met by.now around.old k (plain_stmt stmt.now)) }
{
    let own = walk_own(around, by, k, stmt)?;
    let inner = walk_inner(around, by, k, stmt)?;
    let rest = walk_rest(around, by, k, stmt)?;
    Ok(first(own, first(inner, rest)))
}

// Statements that have that nesting. What stands around them is left as it was.
#[cycle(statements)]
fn walk_stmts(
    around: &mut CheckScopes,
    by: &Standard,
    k: u32,
    list: &[Stmt],
) -> Result<Option<Refusal>, AllocError>
    ensures kept { OnOk result (around.new ≡ around.old) }
    ensures told { IfOk result (λ r. r ≡ refused_first by.now (stmts_sites around.old k (stmts_of (map plain_stmt list.now)))) }
{
    let mut refusal = None;
    for stmt in list {
        let found = walk_stmt(around, by, k, stmt)?;
        refusal = first(refusal, found);
    }
    Ok(refusal)
}

/// The statements, which have that nesting, and the handlers of a unit. What stands around them is left as it was.
pub fn walk_body(
    around: &mut CheckScopes,
    by: &Standard,
    k: u32,
    body: &Body,
) -> Result<Option<Refusal>, AllocError>
    ensures kept { OnOk result (around.new ≡ around.old) }
    ensures told { IfOk result (λ r. r ≡ refused_first by.now (body_sites around.old k (plain_body body.now))) }
{
    let inner = walk_stmts(around, by, k, &body.stmts)?;
    let handlers = walk_handlers(around, by, k, &body.handlers)?;
    Ok(first(inner, handlers))
}
