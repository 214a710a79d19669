// Tests with guards.

ghost use Rattle.std.specs.Prelude.{◌≡◌, IfOk, map, option_map};
ghost use Rattle.ada_tree.specs.PlainExpr.{plain_expr};
ghost use Rattle.ada_stmt_copy.specs.expressions.Parts.{OkWith};
ghost use Rattle.replay_model.specs.Waiting.{never_so, and_guard, is_shut, and_later};
ghost use Rattle.replay_statements.specs.waiting.Waited.{plain_pause, is_due};
ghost use Rattle.replay_asking.specs.Looked.{voice_of};

use crate::waiting::SeenPause;
use ada_stmt_copy::expressions::ExprCopy;
use ada_tree::{Expr, Memory, NameId, Span, UnaryOp};
use control_script::KIND_DELAY;
use replay_asking::{Speaker, both_of, is_for};
use std::alloc::Global;
use tree_rewriting::making::{name_expr, unary_of};

/// FALSE.
pub(crate) fn never_so(s: Span) -> Expr
    ensures { plain_expr result ≡ never_so s }
{
    name_expr(NameId::FALSE, s)
}

/// A test, and that a guard holds, where there is one.
pub(crate) fn and_guard(
    alloc: Global,
    test: Result<Expr, Memory>,
    guard: &Option<Expr>,
    s: Span,
) -> Result<Expr, Memory>
    ensures { IfOk result (λ made. OkWith test (λ t. plain_expr made ≡ and_guard s (plain_expr t) (option_map plain_expr guard.now))) }
{
    match guard {
        None => test,
        Some(guard) => both_of(alloc, test, guard.copy(alloc), s),
    }
}

// A guard does not hold.
fn is_shut(alloc: Global, guard: &Option<Expr>, s: Span) -> Result<Expr, Memory>
    ensures { IfOk result (λ made. plain_expr made ≡ is_shut s (option_map plain_expr guard.now)) }
{
    match guard {
        None => Ok(never_so(s)),
        Some(guard) => unary_of(alloc, UnaryOp::Not, guard.copy(alloc), s),
    }
}

// A test, and that a delay alternative is shut where it is shorter.
fn and_later(
    alloc: Global,
    test: Result<Expr, Memory>,
    pause: &SeenPause,
    thousandths: u32,
    s: Span,
) -> Result<Expr, Memory>
    ensures { IfOk result (λ made. OkWith test (λ t. plain_expr made ≡ and_later s thousandths (plain_expr t) (plain_pause pause.now))) }
{
    if pause.thousandths < thousandths {
        both_of(alloc, test, is_shut(alloc, &pause.guard, s), s)
    } else {
        test
    }
}

/// The permit is for the k-th delay alternative, of this duration, its guard holds, and each shorter one is shut.
pub(crate) fn is_due(
    alloc: Global,
    x: &Speaker,
    pauses: &[SeenPause],
    k: u32,
    thousandths: u32,
    guard: &Option<Expr>,
    s: Span,
) -> Result<Expr, Memory>
    ensures { IfOk result (λ made. plain_expr made ≡ is_due (voice_of x.now) s (map plain_pause pauses.now) k thousandths (option_map plain_expr guard.now)) }
{
    let mut test = and_guard(alloc, is_for(alloc, x, KIND_DELAY, k, s), guard, s);
    for pause in pauses {
        test = and_later(alloc, test, pause, thousandths, s);
    }
    test
}
