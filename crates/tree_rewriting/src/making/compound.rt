// Compound statements of the forms that rewriters add, of parts that come as results.

ghost use Rattle.std.specs.Prelude.{◌≡◌, ◌∷◌, [], IfOk, None};
ghost use Rattle.ada_tree.specs.PlainExpr.{plain_expr};
ghost use Rattle.ada_tree.specs.PlainStmt.{plain_case_arm, plain_choice, plain_handler, plain_stmt, seen, seen_maybe, SAbort, SIf, arm, arm_then, no_arm, case_arm, handler};
ghost use Rattle.ada_stmt_copy.specs.expressions.Parts.{OkWith};

use crate::making::leaves::callee_named;
use crate::making::node_lists::{one, one_arm};
use ada_stmt_copy::building::{abort_of, arm_of, case_arm_of, handler_of, if_of};
use ada_tree::{CaseArm, CaseChoice, Expr, Handler, Memory, Span, Stmt, Word};
use std::alloc::Global;

/// An abort statement of the task of a name.
pub fn abort_one(alloc: Global, name: Word, span: Span) -> Result<Stmt, Memory>
    ensures { IfOk result (λ made. plain_stmt made ≡ SAbort (record { name = name; index = None } ∷ []) span) }
{
    abort_of(one(alloc, Ok(callee_named(name))), span)
}

/// An if statement with one condition, and an else part where one is given.
pub fn if_one(
    alloc: Global,
    test: Result<Expr, Memory>,
    stmts: Result<Vec<Stmt>, Memory>,
    otherwise: Result<Option<Vec<Stmt>>, Memory>,
    span: Span,
) -> Result<Stmt, Memory>
    ensures { IfOk result (λ made. OkWith test (λ t. OkWith stmts (λ k. OkWith otherwise (λ o. plain_stmt made ≡ SIf (arm_then (arm (plain_expr t) (seen k.items)) no_arm) (seen_maybe o) span)))) }
{
    if_of(one_arm(alloc, arm_of(test, stmts)), otherwise, span)
}

/// Statements of a case statement for one value.
pub fn value_arm(
    alloc: Global,
    value: Result<Expr, Memory>,
    stmts: Result<Vec<Stmt>, Memory>,
) -> Result<CaseArm, Memory>
    ensures { IfOk result (λ made. OkWith value (λ v. OkWith stmts (λ k. plain_case_arm made ≡ case_arm (record { first = plain_expr v; last = None } ∷ []) (seen k.items)))) }
{
    case_arm_of(one(alloc, choice_of(value)), stmts)
}

// A choice of one value.
fn choice_of(value: Result<Expr, Memory>) -> Result<CaseChoice, Memory>
    ensures { IfOk result (λ made. OkWith value (λ v. plain_choice made ≡ record { first = plain_expr v; last = None })) }
{
    match value {
        Ok(first) => Ok(CaseChoice { first, last: None }),
        Err(e) => Err(e),
    }
}

/// A handler of one exception.
pub fn handler_one(
    alloc: Global,
    name: Word,
    stmts: Result<Vec<Stmt>, Memory>,
    span: Span,
) -> Result<Handler, Memory>
    ensures { IfOk result (λ made. OkWith stmts (λ k. plain_handler made ≡ handler (name ∷ []) (seen k.items) span)) }
{
    handler_of(one(alloc, Ok(name)), stmts, span)
}

/// A handler of all other exceptions.
pub fn handler_others(
    alloc: Global,
    stmts: Result<Vec<Stmt>, Memory>,
    span: Span,
) -> Result<Handler, Memory>
    ensures { IfOk result (λ made. OkWith stmts (λ k. plain_handler made ≡ handler [] (seen k.items) span)) }
{
    handler_of(Ok(Vec::new(alloc)), stmts, span)
}
