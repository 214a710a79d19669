// The test in front of a selective wait whose alternatives may all be closed.

ghost use Rattle.std.specs.Prelude.{◌≡◌, ◌==◌, [], true, false, IfOk, OnOk, is_some, length, map, option_map, None, Some};
ghost use Rattle.ada_tree.specs.PlainExpr.{plain_expr};
ghost use Rattle.ada_tree.specs.PlainStmt.{absent, alts_of, arm, arm_then, no_arm, plain_alt, plain_stmt, seen, seen_maybe, SIf, SRaise};
ghost use Rattle.ada_stmt_copy.specs.expressions.Parts.{OkWith};
ghost use Rattle.task_model.specs.Frames.{in_front};
ghost use Rattle.normal_model.specs.Making.{one};
ghost use Rattle.normal_model.specs.Ranges.{word_at};
ghost use Rattle.normal_model.specs.Waits.{all_guards, closed_test, not_held};
ghost use Rattle.normal_walk.specs.waits.inner.Closing.{closed_from, guard_or, guards_in};

use ada_stmt_copy::expressions::ExprCopy;
use ada_tree::{Alt, BinaryOp, Expr, Memory, NameId, Span, Stmt, UnaryOp, Word};
use normal_lookups::pieces::push_made;
use std::alloc::Global;
use tree_rewriting::making::{chain, if_one, keep_expr, one_stmt, raise_stmt, unary_of};

// Whether each alternative has a guard.
fn are_guarded(alts: &[Alt]) -> bool
    ensures { result ≡ is_some (all_guards (alts_of (map plain_alt alts.now))) }
{
    for alt in alts {
        match &alt.guard {
            Some(_) => {}
            None => return false,
        }
    }
    true
}

// `not G`
fn not_held(alloc: Global, guard: &Expr, span: Span) -> Result<Expr, Memory>
    ensures { IfOk result (λ made. plain_expr made ≡ not_held span (plain_expr guard.now)) }
{
    unary_of(alloc, UnaryOp::Not, guard.copy(alloc), span)
}

// The test that the guard of an alternative does not hold goes behind those of others, where it has one.
fn put_guard(alloc: Global, alt: &Alt, span: Span, test: &mut Option<Expr>) -> Result<(), Memory>
    ensures { OnOk result (option_map plain_expr test.new ≡ closed_from span (option_map plain_expr test.old) (guard_or (option_map plain_expr alt.now.guard) [])) }
{
    match &alt.guard {
        Some(guard) => chain(
            alloc,
            BinaryOp::And,
            test,
            not_held(alloc, guard, span),
            span,
        ),
        None => Ok(()),
    }
}

// The test that no guard holds goes into an empty place, where there is a guard.
fn put_test(alloc: Global, alts: &[Alt], span: Span, test: &mut Option<Expr>) -> Result<(), Memory>
    requires { test.old ≡ None }
    ensures { OnOk result (option_map plain_expr test.new ≡ closed_from span None (guards_in (map plain_alt alts.now))) }
{
    for alt in alts {
        put_guard(alloc, alt, span, test)?;
    }
    Ok(())
}

// `if T then raise PROGRAM_ERROR; end if;`
fn raise_if(alloc: Global, test: Result<Expr, Memory>, span: Span) -> Result<Stmt, Memory>
    ensures { IfOk result (λ made. OkWith test (λ t. plain_stmt made ≡ SIf (arm_then (arm (plain_expr t) (one (SRaise (Some (word_at span record { 0 = 8 })) span))) no_arm) absent span)) }
{
    let name = Word {
        name: NameId::PROGRAM_ERROR,
        span,
    };
    if_one(
        alloc,
        test,
        one_stmt(alloc, Ok(raise_stmt(name, span))),
        Ok(None),
        span,
    )
}

// The test goes behind other statements, where there are alternatives and each has a guard.
fn push_test(alloc: Global, alts: &[Alt], span: Span, out: &mut Vec<Stmt>) -> Result<(), Memory>
    requires some { (length alts.now == 0) ≡ false }
    requires guarded { is_some (all_guards (alts_of (map plain_alt alts.now))) ≡ true }
    ensures { OnOk result (seen out.new.items ≡ in_front (seen out.old.items) (closed_test span absent (all_guards (alts_of (map plain_alt alts.now))))) }
{
    let mut test = None;
    let done = put_test(alloc, alts, span, &mut test);
    push_made(out, raise_if(alloc, keep_expr(test, done), span))
}

// The test goes behind other statements of a wait without else part.
fn push_raise(alloc: Global, alts: &[Alt], span: Span, out: &mut Vec<Stmt>) -> Result<(), Memory>
    ensures { OnOk result (seen out.new.items ≡ in_front (seen out.old.items) (closed_test span absent (all_guards (alts_of (map plain_alt alts.now))))) }
{
    if alts.is_empty() {
        return Ok(());
    }
    if are_guarded(alts) {
        push_test(alloc, alts, span, out)
    } else {
        Ok(())
    }
}

/// The test in front of a selective wait goes behind other statements, where its alternatives may all be closed and it has no else part.
pub(crate) fn push_closed_test(
    alloc: Global,
    alts: &[Alt],
    otherwise: &Option<Vec<Stmt>>,
    span: Span,
    out: &mut Vec<Stmt>,
) -> Result<(), Memory>
    ensures { OnOk result (seen out.new.items ≡ in_front (seen out.old.items) (closed_test span (seen_maybe otherwise.now) (all_guards (alts_of (map plain_alt alts.now))))) }
{
    match otherwise {
        Some(_) => Ok(()),
        None => push_raise(alloc, alts, span, out),
    }
}
