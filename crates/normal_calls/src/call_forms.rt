// The forms of a call, and the call in the branch of a member.

ghost use Rattle.std.specs.Prelude.{◌≡◌, IfOk};
ghost use Rattle.ada_tree.specs.PlainStmt.{plain_call, plain_callee, plain_stmt, seen};
ghost use Rattle.normal_model.specs.Calls.{call_to, flagged};
ghost use Rattle.normal_model.specs.Members.{known_callee};
ghost use Rattle.normal_calls.specs.inner.CallForms.{branch, formed};

use crate::numbers::flag_number;
use crate::passed::call_to;
use ada_stmt_copy::building::{call_of, conditional_of, timed_of};
use ada_tree::{Call, Callee, Memory, Span, Stmt, Word};
use normal_lookups::pieces::{Meanings, assigned_stmt};
use std::alloc::Global;
use tree_rewriting::making::{integer_expr, one_stmt, take_stmts};

/// The form of a call: a plain one, a conditional one, or a timed one, whose delay is in thousandths of a second.
#[derive(Clone, Copy, Debug, PartialEq, Eq)]
pub(crate) enum Form {
    Plain,
    Conditional,
    Timed(u32),
}

/// The name of a callee without index or with a static one.
pub(crate) fn known_callee<M: Meanings>(m: &M, callee: &Callee) -> Word
    requires { M.fits m.now }
    ensures { result ≡ known_callee (M.setting m.now) (plain_callee callee.now) }
{
    Word {
        name: m.callee_name(callee),
        span: callee.name.span,
    }
}

// The statement that tells which part of a select came.
fn flagged<M: Meanings>(
    alloc: Global,
    m: &M,
    number: u32,
    call: &Call,
    part: u32,
    span: Span,
) -> Result<Vec<Stmt>, Memory>
    requires { M.fits m.now }
    ensures { IfOk result (λ made. seen made.items ≡ flagged (M.setting m.now) span (plain_call call.now) number part) }
{
    let flag = flag_number(m, number, call, span)?;
    one_stmt(
        alloc,
        assigned_stmt(m, flag, Ok(integer_expr(part, span)), span),
    )
}

/// The call in the branch of the member of a name.
pub(crate) fn branch<M: Meanings>(
    alloc: Global,
    m: &M,
    number: u32,
    call: &Call,
    form: Form,
    name: Word,
    span: Span,
) -> Result<Stmt, Memory>
    requires { M.fits m.now }
    ensures { IfOk result (λ made. plain_stmt made ≡ branch form (M.setting m.now) span (plain_call call.now) number name) }
{
    let made = call_to(alloc, m, number, call, name, span);
    match form {
        Form::Plain => call_of(made, span),
        Form::Conditional => conditional_of(
            made,
            flagged(alloc, m, number, call, 1, span),
            flagged(alloc, m, number, call, 2, span),
            span,
        ),
        Form::Timed(duration) => timed_of(
            made,
            flagged(alloc, m, number, call, 1, span),
            duration,
            flagged(alloc, m, number, call, 2, span),
            span,
        ),
    }
}

/// The call of a callee that is known, with the statements of its parts, which are taken from where they stand.
pub(crate) fn known_call<M: Meanings>(
    alloc: Global,
    m: &M,
    number: u32,
    call: &Call,
    form: Form,
    met: &mut Vec<Stmt>,
    other: &mut Vec<Stmt>,
    span: Span,
) -> Result<Stmt, Memory>
    requires { M.fits m.now }
    ensures { IfOk result (λ made. plain_stmt made ≡ formed form span (call_to (M.setting m.now) span (plain_call call.now) number (known_callee (M.setting m.now) (plain_callee call.now.task))) (seen met.old.items) (seen other.old.items)) }
{
    let name = known_callee(m, &call.task);
    let made = call_to(alloc, m, number, call, name, span);
    match form {
        Form::Plain => call_of(made, span),
        Form::Conditional => conditional_of(
            made,
            Ok(take_stmts(alloc, met)),
            Ok(take_stmts(alloc, other)),
            span,
        ),
        Form::Timed(duration) => timed_of(
            made,
            Ok(take_stmts(alloc, met)),
            duration,
            Ok(take_stmts(alloc, other)),
            span,
        ),
    }
}
