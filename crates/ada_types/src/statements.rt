// What the rules but Duplicate refuse first in statements. Lists are gone through by loops, so recursion follows nesting alone.
#![tactic(auto, using(ada_static_rules::proofs::Listing::lists, ada_tree::proofs::Rows::rows))]

ghost use Rattle.std.specs.Prelude.{◌≡◌, ◌++◌, ◌∷◌, [], ℕ, false, List, OnOk, IfOk, map, flat_map, option_map};
ghost use Rattle.ada_tree.specs.PlainExpr.{plain_expr, plain_drange};
ghost use Rattle.ada_tree.specs.PlainStmt.{plain_target, plain_callee, plain_part, plain_scheme, plain_accept, plain_alt, plain_alt_kind, plain_arm, plain_case_arm, plain_handler, plain_body, plain_stmt, plain_formal, stmts_of, alts_of, arms_of, case_arms_of, handlers_of};
ghost use Rattle.ada_static_rules.specs.RuleMismatch.{target_kind};
ghost use Rattle.ada_static_rules.specs.Demand.{names_exception, chooses};
ghost use Rattle.ada_static_rules.specs.Declaring.{with_formals, with_loop_parameter, inner_scope};
ghost use Rattle.ada_static_rules.specs.Sites.{site, expr_sites, arm_choices, if_there, condition_sites, target_sites, expr_of, callee_sites, part_sites, drange_sites, handler_names_sites, stmt_sites, stmts_sites, accept_sites, alts_sites, alt_sites, arms_sites, case_arms_sites, body_sites, handlers_sites, scheme_sites, loop_scope};
ghost use Rattle.ada_static_rules.specs.RefusedFirst.{refused_first, refused_first_at};
ghost use Rattle.ada_scopes.specs.Entries.{plain_range};
ghost use Rattle.ada_types.specs.inner.SitesOfMembers.{each_alt, each_arm, each_case_arm, each_handler, IsCaseHead};

use crate::written_parts::walk_part;
use ada_entry_rules::accept_heads::walk_head;
use ada_entry_rules::callees::walk_callee;
use ada_entry_rules::calls::walk_call;
use ada_entry_rules::case_choices::choices::{refuse_choices, selected_values, walk_choices};
use ada_entry_rules::targets::{walk_get, walk_target};
use ada_expr_rules::kinds::TRUTH;
use ada_expr_rules::ranges::walk_range;
use ada_expr_rules::walking::{walk, walk_of};
use ada_scopes::denotations::{Range, Thing};
use ada_scopes::formals::{declare_formals, parameter};
use ada_scopes::scope::Scope;
use ada_static_rules::refusals::{Refusal, Rule, first, refuse};
use ada_tree::{
    Accept, Alt, AltKind, Arm, Body, Call, Callee, CaseArm, Drange, Expr, Formal, Handler, Part,
    Scheme, Span, Stmt, StmtKind, Target, Word,
};
use std::alloc::{AllocError, Global};

// A condition.
fn walk_condition(scope: &Scope, test: &Expr) -> Option<Refusal>
    ensures { result ≡ refused_first (condition_sites scope.now (plain_expr test.now)) }
{
    walk_of(scope, Some(TRUTH), test).refusal
}

// A condition that may be left out.
fn walk_test(scope: &Scope, test: &Option<Expr>) -> Option<Refusal>
    ensures { result ≡ refused_first (if_there (condition_sites scope.now) (option_map plain_expr test.now)) }
{
    match test {
        Some(test) => walk_condition(scope, test),
        None => None,
    }
}

// An assignment.
fn walk_assign(scope: &Scope, target: &Target, value: &Expr) -> Option<Refusal>
    ensures { result ≡ refused_first (target_sites scope.now (plain_target target.now) ++ expr_of scope.now (target_kind scope.now (plain_target target.now)) (plain_expr value.now)) }
{
    let written = walk_target(scope, target);
    let walked = walk_of(scope, written.kind, value);
    first(written.refusal, walked.refusal)
}

// A name where an exception's is needed.
fn refuse_no_exception(scope: &Scope, name: Word) -> Option<Refusal>
    ensures { result ≡ refused_first_at scope.now (names_exception name) }
{
    match scope.meaning(name.name) {
        Some(thing) => match thing {
            Thing::AnException | Thing::Unclear => None,
            _ => refuse(Rule::NotException, name.span),
        },
        None => refuse(Rule::Unknown, name.span),
    }
}

// The name of what is raised, which may be left out.
fn walk_raise(scope: &Scope, name: Option<Word>) -> Option<Refusal>
    ensures { result ≡ refused_first (if_there (λ x. site scope.now (names_exception x) ∷ []) name) }
{
    match name {
        Some(name) => refuse_no_exception(scope, name),
        None => None,
    }
}

// The tasks of an abort statement.
fn walk_abort(scope: &Scope, names: &[Callee]) -> Option<Refusal>
    ensures { result ≡ refused_first (flat_map (callee_sites scope.now) (map plain_callee names.now)) }
{
    let mut refusal = None;
    for name in names {
        refusal = first(refusal, walk_callee(scope, name));
    }
    refusal
}

// The parts of a text, of which one may be all that PUT writes.
fn walk_text(scope: &Scope, alone: bool, parts: &[Part]) -> Option<Refusal>
    ensures { result ≡ refused_first (flat_map (part_sites scope.now alone) (map plain_part parts.now)) }
{
    let mut refusal = None;
    for part in parts {
        refusal = first(refusal, walk_part(scope, alone, part));
    }
    refusal
}

// The names of a handler.
fn walk_exceptions(scope: &Scope, names: &[Word]) -> Option<Refusal>
    ensures { (before : List ℕ) → result ≡ refused_first (handler_names_sites scope.now before names.now) }
{
    let mut refusal = None;
    for name in names {
        refusal = first(refusal, refuse_no_exception(scope, *name));
    }
    refusal
}

// The statements of an accept, which see its formals.
#[cycle(statements)]
fn walk_inner(
    scope: &mut Scope,
    alloc: Global,
    formals: &[Formal],
    list: &[Stmt],
) -> Result<Option<Refusal>, AllocError>
    ensures kept { OnOk result (scope.new ≡ scope.old) }
    ensures told { IfOk result (λ r. r ≡ refused_first (stmts_sites (with_formals (inner_scope scope.old) (map plain_formal formals.now)) (stmts_of (map plain_stmt list.now)))) }
{
    let outer = scope.enter();
    declare_formals(scope, formals)?;
    let refusal = walk_stmts(scope, alloc, list)?;
    scope.leave(outer);
    Ok(refusal)
}

#[cycle(statements)]
fn walk_accept(
    scope: &mut Scope,
    alloc: Global,
    accept: &Accept,
) -> Result<Option<Refusal>, AllocError>
    ensures kept { OnOk result (scope.new ≡ scope.old) }
    ensures told { IfOk result (λ r. r ≡ refused_first (accept_sites scope.old (plain_accept accept.now))) }
{
    let head = walk_head(scope, accept.entry, &accept.index, &accept.formals);
    match &accept.stmts {
        Some(list) => {
            let inner = walk_inner(scope, alloc, &accept.formals, list)?;
            Ok(first(head, inner))
        }
        None => Ok(head),
    }
}

// An alternative without its guard.
#[cycle(statements)]
fn walk_kind(
    scope: &mut Scope,
    alloc: Global,
    kind: &AltKind,
) -> Result<Option<Refusal>, AllocError>
    ensures kept { OnOk result (scope.new ≡ scope.old) }
    ensures told { IfOk result (λ r. r ≡ refused_first (alt_sites scope.old (plain_alt_kind kind.now))) }
{
    match kind {
        AltKind::Accept { accept, stmts } => {
            let head = walk_accept(scope, alloc, accept)?;
            let behind = walk_stmts(scope, alloc, stmts)?;
            Ok(first(head, behind))
        }
        AltKind::Delay { stmts, .. } => walk_stmts(scope, alloc, stmts),
        AltKind::Terminate => Ok(None),
    }
}

#[cycle(statements)]
fn walk_alt(scope: &mut Scope, alloc: Global, alt: &Alt) -> Result<Option<Refusal>, AllocError>
    ensures kept { OnOk result (scope.new ≡ scope.old) }
    ensures told { IfOk result (λ r. r ≡ refused_first (each_alt scope.old (plain_alt alt.now))) }
{
    let guard = walk_test(scope, &alt.guard);
    let kind = walk_kind(scope, alloc, &alt.kind)?;
    Ok(first(guard, kind))
}

#[cycle(statements)]
fn walk_alts(scope: &mut Scope, alloc: Global, alts: &[Alt]) -> Result<Option<Refusal>, AllocError>
    ensures kept { OnOk result (scope.new ≡ scope.old) }
    ensures told { IfOk result (λ r. r ≡ refused_first (alts_sites scope.old (alts_of (map plain_alt alts.now)))) }
{
    let mut refusal = None;
    for alt in alts {
        let found = walk_alt(scope, alloc, alt)?;
        refusal = first(refusal, found);
    }
    Ok(refusal)
}

// A condition with its statements.
#[cycle(statements)]
fn walk_arm(scope: &mut Scope, alloc: Global, arm: &Arm) -> Result<Option<Refusal>, AllocError>
    ensures kept { OnOk result (scope.new ≡ scope.old) }
    ensures told { IfOk result (λ r. r ≡ refused_first (each_arm scope.old (plain_arm arm.now))) }
{
    let test = walk_condition(scope, &arm.test);
    let behind = walk_stmts(scope, alloc, &arm.stmts)?;
    Ok(first(test, behind))
}

#[cycle(statements)]
fn walk_arms(scope: &mut Scope, alloc: Global, arms: &[Arm]) -> Result<Option<Refusal>, AllocError>
    ensures kept { OnOk result (scope.new ≡ scope.old) }
    ensures told { IfOk result (λ r. r ≡ refused_first (arms_sites scope.old (arms_of (map plain_arm arms.now)))) }
{
    let mut refusal = None;
    for arm in arms {
        let found = walk_arm(scope, alloc, arm)?;
        refusal = first(refusal, found);
    }
    Ok(refusal)
}

// The choices of a `when` with its statements.
#[cycle(statements)]
fn walk_case_arm(
    scope: &mut Scope,
    alloc: Global,
    kind: Option<u32>,
    values: Option<Range>,
    arm: &CaseArm,
) -> Result<Option<Refusal>, AllocError>
    ensures kept { OnOk result (scope.new ≡ scope.old) }
    ensures told { IfOk result (λ r. r ≡ refused_first (each_case_arm scope.old kind (option_map plain_range values) (plain_case_arm arm.now))) }
{
    let choices = walk_choices(scope, kind, values, &arm.choices);
    let behind = walk_stmts(scope, alloc, &arm.stmts)?;
    Ok(first(choices, behind))
}

#[cycle(statements)]
fn walk_case_arms(
    scope: &mut Scope,
    alloc: Global,
    kind: Option<u32>,
    values: Option<Range>,
    arms: &[CaseArm],
) -> Result<Option<Refusal>, AllocError>
    ensures kept { OnOk result (scope.new ≡ scope.old) }
    ensures told { IfOk result (λ r. r ≡ refused_first (case_arms_sites scope.old kind (option_map plain_range values) (case_arms_of (map plain_case_arm arms.now)))) }
{
    let mut refusal = None;
    for arm in arms {
        let found = walk_case_arm(scope, alloc, kind, values, arm)?;
        refusal = first(refusal, found);
    }
    Ok(refusal)
}

// What is known of the selector of a case, and the first refusal at the places before its arms.
#[derive(Drop)]
struct CaseHead {
    kind: Option<u32>,
    values: Option<Range>,
    refusal: Option<Refusal>,
}

// The selector of a case, and its choices together.
fn walk_selector(
    scope: &Scope,
    alloc: Global,
    selector: &Expr,
    arms: &[CaseArm],
    others: bool,
    span: Span,
) -> Result<CaseHead, AllocError>
    ensures { IfOk result (IsCaseHead (site scope.now (chooses (plain_expr selector.now) (arm_choices (case_arms_of (map plain_case_arm arms.now))) others span) ∷ expr_sites scope.now (plain_expr selector.now)) scope.now (plain_expr selector.now)) }
{
    let whole = refuse_choices(alloc, scope, selector, arms, others, span)?;
    let walked = walk(scope, selector);
    Ok(CaseHead {
        kind: walked.kind,
        values: selected_values(scope, selector, walked.kind),
        refusal: first(whole, walked.refusal),
    })
}

#[cycle(statements)]
fn walk_handler(
    scope: &mut Scope,
    alloc: Global,
    handler: &Handler,
) -> Result<Option<Refusal>, AllocError>
    ensures kept { OnOk result (scope.new ≡ scope.old) }
    ensures told { IfOk result (λ r. r ≡ refused_first (each_handler scope.old (plain_handler handler.now))) }
{
    let names = walk_exceptions(scope, &handler.names);
    let behind = walk_stmts(scope, alloc, &handler.stmts)?;
    Ok(first(names, behind))
}

#[cycle(statements)]
fn walk_handlers(
    scope: &mut Scope,
    alloc: Global,
    handlers: &[Handler],
) -> Result<Option<Refusal>, AllocError>
    ensures kept { OnOk result (scope.new ≡ scope.old) }
    ensures told { IfOk result (λ r. r ≡ refused_first (handlers_sites scope.old [] (handlers_of (map plain_handler handlers.now)))) }
{
    let mut refusal = None;
    for handler in handlers {
        let found = walk_handler(scope, alloc, handler)?;
        refusal = first(refusal, found);
    }
    Ok(refusal)
}

/// The statements and the handlers of a unit or a block. The scope is left as it was.
#[cycle(statements)]
pub(crate) fn walk_body(
    scope: &mut Scope,
    alloc: Global,
    body: &Body,
) -> Result<Option<Refusal>, AllocError>
    ensures kept { OnOk result (scope.new ≡ scope.old) }
    ensures told { IfOk result (λ r. r ≡ refused_first (body_sites scope.old (plain_body body.now))) }
{
    let inner = walk_stmts(scope, alloc, &body.stmts)?;
    let handlers = walk_handlers(scope, alloc, &body.handlers)?;
    Ok(first(inner, handlers))
}

// The statements of a for loop, which see its parameter.
#[cycle(statements)]
fn walk_counted(
    scope: &mut Scope,
    alloc: Global,
    name: Word,
    range: &Drange,
    list: &[Stmt],
) -> Result<Option<Refusal>, AllocError>
    ensures kept { OnOk result (scope.new ≡ scope.old) }
    ensures told { IfOk result (λ r. r ≡ refused_first (drange_sites false scope.old (plain_drange range.now) ++ stmts_sites (with_loop_parameter scope.old name (plain_drange range.now)) (stmts_of (map plain_stmt list.now)))) }
{
    let walked = walk_range(scope, false, range);
    let thing = parameter(scope, walked.kind);
    let outer = scope.enter();
    scope.declare(name, thing)?;
    let inner = walk_stmts(scope, alloc, list)?;
    scope.leave(outer);
    Ok(first(walked.refusal, inner))
}

// A loop without its name.
#[cycle(statements)]
fn walk_loop(
    scope: &mut Scope,
    alloc: Global,
    scheme: &Option<Scheme>,
    list: &[Stmt],
) -> Result<Option<Refusal>, AllocError>
    ensures kept { OnOk result (scope.new ≡ scope.old) }
    ensures told { IfOk result (λ r. r ≡ refused_first (if_there (scheme_sites scope.old) (option_map plain_scheme scheme.now) ++ stmts_sites (loop_scope scope.old (option_map plain_scheme scheme.now)) (stmts_of (map plain_stmt list.now)))) }
{
    match scheme {
        Some(scheme) => match scheme {
            Scheme::While(test) => {
                let test = walk_condition(scope, test);
                let inner = walk_stmts(scope, alloc, list)?;
                Ok(first(test, inner))
            }
            Scheme::For { name, range, .. } => walk_counted(scope, alloc, *name, range, list),
        },
        None => walk_stmts(scope, alloc, list),
    }
}

#[cycle(statements)]
fn walk_stmt(scope: &mut Scope, alloc: Global, stmt: &Stmt) -> Result<Option<Refusal>, AllocError>
    ensures kept { OnOk result (scope.new ≡ scope.old) }
    ensures told { IfOk result (λ r. r ≡ refused_first (stmt_sites scope.old (plain_stmt stmt.now))) }
{
    match &stmt.kind {
        StmtKind::Null => Ok(None),
        StmtKind::Assign { target, value } => Ok(walk_assign(scope, target, value)),
        StmtKind::Delay { .. } => Ok(None),
        StmtKind::Exit { test, .. } => Ok(walk_test(scope, test)),
        StmtKind::Raise { name } => Ok(walk_raise(scope, *name)),
        StmtKind::Abort { names } => Ok(walk_abort(scope, names)),
        StmtKind::Call(call) => Ok(walk_call(scope, call)),
        StmtKind::Accept(accept) => walk_accept(scope, alloc, accept),
        StmtKind::Wait { alts, otherwise } => {
            let inner = walk_alts(scope, alloc, alts)?;
            match otherwise {
                Some(list) => {
                    let rest = walk_stmts(scope, alloc, list)?;
                    Ok(first(inner, rest))
                }
                None => Ok(inner),
            }
        }
        StmtKind::Conditional {
            call,
            behind,
            otherwise,
        } => {
            let head = walk_call(scope, call);
            let behind = walk_stmts(scope, alloc, behind)?;
            let other = walk_stmts(scope, alloc, otherwise)?;
            Ok(first(first(head, behind), other))
        }
        StmtKind::Timed {
            call,
            behind,
            after,
            ..
        } => {
            let head = walk_call(scope, call);
            let behind = walk_stmts(scope, alloc, behind)?;
            let other = walk_stmts(scope, alloc, after)?;
            Ok(first(first(head, behind), other))
        }
        StmtKind::Put { parts } => Ok(walk_text(scope, parts.len() == 1, parts)),
        StmtKind::PutLine { parts } => Ok(walk_text(scope, false, parts)),
        StmtKind::NewLine => Ok(None),
        StmtKind::Get { target } => Ok(walk_get(scope, target)),
        StmtKind::If { arms, otherwise } => {
            let inner = walk_arms(scope, alloc, arms)?;
            match otherwise {
                Some(list) => {
                    let rest = walk_stmts(scope, alloc, list)?;
                    Ok(first(inner, rest))
                }
                None => Ok(inner),
            }
        }
        StmtKind::Case {
            selector,
            arms,
            others,
        } => {
            let head = walk_selector(scope, alloc, selector, arms, others.is_some(), stmt.span)?;
            let inner = walk_case_arms(scope, alloc, head.kind, head.values, arms)?;
            match others {
                Some(list) => {
                    let rest = walk_stmts(scope, alloc, list)?;
                    Ok(first(first(head.refusal, inner), rest))
                }
                None => Ok(first(head.refusal, inner)),
            }
        }
        StmtKind::Block(body) => walk_body(scope, alloc, body),
        StmtKind::Loop { scheme, stmts, .. } => walk_loop(scope, alloc, scheme, stmts),
    }
}

/// Statements. The scope is left as it was.
#[cycle(statements)]
pub(crate) fn walk_stmts(
    scope: &mut Scope,
    alloc: Global,
    list: &[Stmt],
) -> Result<Option<Refusal>, AllocError>
    ensures kept { OnOk result (scope.new ≡ scope.old) }
    ensures told { IfOk result (λ r. r ≡ refused_first (stmts_sites scope.old (stmts_of (map plain_stmt list.now)))) }
{
    let mut refusal = None;
    for stmt in list {
        let found = walk_stmt(scope, alloc, stmt)?;
        refusal = first(refusal, found);
    }
    Ok(refusal)
}
