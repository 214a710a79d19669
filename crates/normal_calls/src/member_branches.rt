// Case statements over the index of a callee, with a branch for each member of its array.

ghost use Rattle.std.specs.Prelude.{◌≡◌, ◌++◌, ◌∷◌, [], None, IfOk, OnOk, map};
ghost use Rattle.ada_tree.specs.PlainStmt.{SCase, SNull, case_arm, case_arms_of, plain_call, plain_callee, plain_case_arm, plain_stmt, present};
ghost use Rattle.ada_stmt_copy.specs.expressions.Parts.{OkWith};
ghost use Rattle.normal_model.specs.Aborts.{abort_of};
ghost use Rattle.normal_model.specs.Making.{one, variable};
ghost use Rattle.normal_model.specs.Members.{by_member};
ghost use Rattle.normal_lookups.specs.pieces.Seen.{literal_seen, member_seen};
ghost use Rattle.normal_calls.specs.inner.CallForms.{arm_for, branch};

use crate::call_forms::{Form, branch};
use ada_stmt_copy::building::case_others_of;
use ada_tree::{Call, Callee, CaseArm, Memory, Span, Stmt, Word};
use normal_lookups::pieces::{Meanings, Member, literal_expr, variable_expr};
use std::alloc::Global;
use tree_rewriting::making::{
    abort_one, keep_case_arms, null_stmt, one_stmt, push_case_arm, value_arm,
};

// The branch of a member, which holds one statement.
fn member_arm(
    alloc: Global,
    member: Member,
    stmt: Result<Stmt, Memory>,
    span: Span,
) -> Result<CaseArm, Memory>
    ensures { IfOk result (λ made. OkWith stmt (λ x. plain_case_arm made ≡ case_arm (record { first = literal_seen span member.index; last = None } ∷ []) (one (plain_stmt x)))) }
{
    value_arm(
        alloc,
        literal_expr(alloc, member.index, span),
        one_stmt(alloc, stmt),
    )
}

// The branches of members for a call of this form, behind others.
fn push_calls<M: Meanings>(
    alloc: Global,
    m: &M,
    number: u32,
    call: &Call,
    form: Form,
    members: &[Member],
    span: Span,
    arms: &mut Vec<CaseArm>,
) -> Result<(), Memory>
    requires { M.fits m.now }
    ensures { OnOk result (map plain_case_arm arms.new.items ≡ map plain_case_arm arms.old.items ++ map (λ x. arm_for call.now.task.name.span (λ w. one (branch form (M.setting m.now) span (plain_call call.now) number w)) (member_seen span x)) members.now) }
{
    for member in members {
        let name = Word {
            name: member.name,
            span: call.task.name.span,
        };
        let stmt = branch(alloc, m, number, call, form, name, span);
        push_case_arm(arms, member_arm(alloc, *member, stmt, span))?;
    }
    Ok(())
}

// The branches of members for an abort, behind others.
fn push_aborts(
    alloc: Global,
    callee: &Callee,
    members: &[Member],
    span: Span,
    arms: &mut Vec<CaseArm>,
) -> Result<(), Memory>
    ensures { OnOk result (map plain_case_arm arms.new.items ≡ map plain_case_arm arms.old.items ++ map (λ x. arm_for callee.now.name.span (abort_of span) (member_seen span x)) members.now) }
{
    for member in members {
        let name = Word {
            name: member.name,
            span: callee.name.span,
        };
        push_case_arm(
            arms,
            member_arm(alloc, *member, abort_one(alloc, name, span), span),
        )?;
    }
    Ok(())
}

// A case statement over a variable, with `when others => null;`.
fn case_over<M: Meanings>(
    alloc: Global,
    m: &M,
    number: u32,
    arms: Result<Vec<CaseArm>, Memory>,
    span: Span,
) -> Result<Stmt, Memory>
    requires { M.fits m.now }
    ensures { IfOk result (λ made. OkWith arms (λ a. plain_stmt made ≡ SCase (variable (M.setting m.now) span number) (case_arms_of (map plain_case_arm a.items)) (present (one (SNull span))) span)) }
{
    case_others_of(
        variable_expr(m, number, span),
        arms,
        one_stmt(alloc, Ok(null_stmt(span))),
        span,
    )
}

/// The choice of a member for a call of this form.
pub(crate) fn call_by_member<M: Meanings>(
    alloc: Global,
    m: &M,
    number: u32,
    call: &Call,
    form: Form,
    span: Span,
) -> Result<Stmt, Memory>
    requires { M.fits m.now }
    ensures { IfOk result (λ made. plain_stmt made ≡ by_member (M.setting m.now) span (plain_callee call.now.task) number (λ w. one (branch form (M.setting m.now) span (plain_call call.now) number w))) }
{
    let members = m.members(call.task.name.name);
    let mut arms = Vec::new(alloc);
    let done = push_calls(alloc, m, number, call, form, members, span, &mut arms);
    case_over(alloc, m, number, keep_case_arms(arms, done), span)
}

/// The choice of a member for an abort.
pub(crate) fn abort_by_member<M: Meanings>(
    alloc: Global,
    m: &M,
    number: u32,
    callee: &Callee,
    span: Span,
) -> Result<Stmt, Memory>
    requires { M.fits m.now }
    ensures { IfOk result (λ made. plain_stmt made ≡ by_member (M.setting m.now) span (plain_callee callee.now) number (abort_of span)) }
{
    let members = m.members(callee.name.name);
    let mut arms = Vec::new(alloc);
    let done = push_aborts(alloc, callee, members, span, &mut arms);
    case_over(alloc, m, number, keep_case_arms(arms, done), span)
}
