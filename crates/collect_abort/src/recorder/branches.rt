// What the recorder does with a note, by its kind.

ghost use Rattle.std.specs.Prelude.{◌≡◌, ◌∷◌, ◌++◌, [], IfOk, OnOk, map};
ghost use Rattle.ada_tree.specs.PlainStmt.{case_arms_of, plain_case_arm, plain_choice};
ghost use Rattle.collect_model.specs.Noting.{has_failed};
ghost use Rattle.collect_xform.specs.recorder.Branches.{part_arms};
ghost use Rattle.collect_model.specs.aborts.Noting.{has_returned};
ghost use Rattle.collect_model.specs.aborts.Recording.{branches, choice_of};
ghost use Rattle.collect_abort.specs.Looked.{told_of};
ghost use Rattle.collect_abort.specs.Branches.{back_arm, first_arms, last_arms};

use crate::kinds::{AT_ABORT, HAS_RETURNED};
use crate::recorder::aborts::on_abort;
use crate::recorder::meetings::{on_back, on_before_call, on_begun, on_finish};
use crate::teller::AbortReporter;
use ada_stmt_copy::building::case_arm_of;
use ada_tree::{CaseArm, CaseChoice, Memory, Span};
use collect_statements::kinds::{AT_END, AT_FINISH, BEFORE_CALL, HAS_BEGUN, HAS_FAILED};
use collect_xform::recorder::{on_end, put_branch, put_parts};
use std::alloc::Global;
use tree_rewriting::making::{integer_expr, keep_case_arms, push_case_arm};

// A choice of one number.
fn choice_of(kind: u32, s: Span) -> CaseChoice
    ensures { plain_choice result ≡ choice_of s kind }
{
    CaseChoice {
        first: integer_expr(kind, s),
        last: None,
    }
}

// The kinds of a call that has come back, by an exception or not.
fn back_choices(alloc: Global, s: Span) -> Result<Vec<CaseChoice>, Memory>
    ensures { IfOk result (λ made. map plain_choice made.items ≡ choice_of s has_failed ∷ choice_of s has_returned ∷ []) }
{
    let mut choices = Vec::new(alloc);
    choices.push(choice_of(HAS_FAILED, s))?;
    choices.push(choice_of(HAS_RETURNED, s))?;
    Ok(choices)
}

// The branch of a call that has come back.
fn back_arm(alloc: Global, x: &AbortReporter, s: Span) -> Result<CaseArm, Memory>
    ensures { IfOk result (λ made. plain_case_arm made ≡ back_arm (told_of x.now) s) }
{
    case_arm_of(back_choices(alloc, s), on_back(alloc, x, s))
}

// The branch of a call that has come back goes behind others.
fn put_back(alloc: Global, x: &AbortReporter, s: Span, out: &mut Vec<CaseArm>) -> Result<(), Memory>
    ensures { OnOk result (map plain_case_arm out.new.items ≡ map plain_case_arm out.old.items ++ back_arm (told_of x.now) s ∷ []) }
{
    push_case_arm(out, back_arm(alloc, x, s))
}

// The branches of rendezvous: before a call, and of their begin and end.
fn put_first(
    alloc: Global,
    x: &AbortReporter,
    s: Span,
    out: &mut Vec<CaseArm>,
) -> Result<(), Memory>
    ensures { OnOk result (map plain_case_arm out.new.items ≡ map plain_case_arm out.old.items ++ first_arms (told_of x.now) s) }
{
    let n = &x.reporter.tables.added;
    put_branch(alloc, BEFORE_CALL, on_before_call(alloc, n, s), s, out)?;
    put_branch(alloc, HAS_BEGUN, on_begun(alloc, x, s), s, out)?;
    put_branch(alloc, AT_FINISH, on_finish(alloc, x, s), s, out)
}

// The branches of calls that have come back, of the ends of tasks, and of aborts.
fn put_last(alloc: Global, x: &AbortReporter, s: Span, out: &mut Vec<CaseArm>) -> Result<(), Memory>
    ensures { OnOk result (map plain_case_arm out.new.items ≡ map plain_case_arm out.old.items ++ last_arms (told_of x.now) s) }
{
    put_back(alloc, x, s, out)?;
    let n = &x.reporter.tables.added;
    put_branch(alloc, AT_END, on_end(alloc, n, s), s, out)?;
    put_branch(alloc, AT_ABORT, on_abort(alloc, x, s), s, out)
}

// All branches go behind others.
fn put_branches(
    alloc: Global,
    x: &AbortReporter,
    s: Span,
    out: &mut Vec<CaseArm>,
) -> Result<(), Memory>
    ensures { OnOk result (map plain_case_arm out.new.items ≡ map plain_case_arm out.old.items ++ first_arms (told_of x.now) s ++ part_arms (told_of x.now).teller.added s ++ last_arms (told_of x.now) s) }
{
    put_first(alloc, x, s, out)?;
    put_parts(alloc, &x.reporter.tables.added, s, out)?;
    put_last(alloc, x, s, out)
}

/// The branches, by the kinds of notes.
pub(crate) fn branches(alloc: Global, x: &AbortReporter, s: Span) -> Result<Vec<CaseArm>, Memory>
    ensures { IfOk result (λ made. case_arms_of (map plain_case_arm made.items) ≡ branches (told_of x.now) s) }
{
    let mut arms = Vec::new(alloc);
    let done = put_branches(alloc, x, s, &mut arms);
    keep_case_arms(arms, done)
}
