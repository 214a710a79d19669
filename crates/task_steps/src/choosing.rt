// If and case statements (5.3, 5.4).

ghost use Rattle.std.specs.Prelude.{◌≡◌, map, option_map, OnOk, OnErr};
ghost use Rattle.ada_tree.specs.PlainExpr.{plain_expr};
ghost use Rattle.ada_tree.specs.PlainStmt.{arms_of, case_arms_of, plain_arm, plain_case_arm, plain_choice, seen, seen_maybe};
ghost use Rattle.task_model.specs.Rendezvous.{behind_of};
ghost use Rattle.task_model.specs.Steps.{arm_taken, case_step, case_taken, choice_end, choice_fits, choices_fit, if_step, lies_between};
ghost use Rattle.task_model.specs.Tasks.{stmts_or_none};
ghost use Rattle.task_state.specs.Plain.{plain_task};
ghost use Rattle.task_steps.specs.inner.Branches.{branch_in, enter_step, seen_branch};

use ada_tree::{Arm, CaseArm, CaseChoice, Expr, Memory, Stmt};
use ada_value::{Raised, Value, position_of};
use task_state::TaskState;

// The statements of a part that may be left out.
fn stmts_or_none<'p>(part: &'p Option<Vec<Stmt>>) -> &'p [Stmt]
    ensures { seen result.now ≡ stmts_or_none (seen_maybe part.now) }
{
    match part {
        Some(stmts) => stmts,
        None => &[],
    }
}

// The statements of the first arm whose condition holds, and else those of the else part; the conditions are evaluated in order.
fn arm_taken<'p>(
    task: &TaskState<'p>,
    arms: &'p [Arm],
    otherwise: &'p Option<Vec<Stmt>>,
) -> Result<&'p [Stmt], Raised>
    ensures { seen_branch result ≡ branch_in (arm_taken (plain_task task.now) (arms_of (map plain_arm arms.now)) (seen_maybe otherwise.now)) }
{
    for arm in arms {
        match task.condition(&arm.test) {
            Ok(holds) => {
                if holds {
                    return Ok(&arm.stmts);
                }
            }
            Err(raised) => return Err(raised),
        }
    }
    Ok(stmts_or_none(otherwise))
}

// The task enters a branch that is taken, or the exception is raised.
fn enter<'p>(task: &mut TaskState<'p>, branch: Result<&'p [Stmt], Raised>) -> Result<(), Memory>
    ensures ok { OnOk result (plain_task task.new ≡ enter_step (seen_branch branch.entry) (behind_of (plain_task task.old)) (plain_task task.old)) }
    ensures err { OnErr result (plain_task task.new ≡ plain_task task.old) }
{
    match branch {
        Ok(stmts) => task.enter(stmts),
        Err(raised) => {
            task.raise(raised);
            Ok(())
        }
    }
}

/// The step of an if statement, into the branch that is taken (5.3). It fails by want of memory alone.
pub fn step_if<'p>(
    task: &mut TaskState<'p>,
    arms: &'p [Arm],
    otherwise: &'p Option<Vec<Stmt>>,
) -> Result<(), Memory>
    ensures ok { OnOk result (plain_task task.new ≡ if_step (arms_of (map plain_arm arms.now)) (seen_maybe otherwise.now) (behind_of (plain_task task.old)) (plain_task task.old)) }
    ensures err { OnErr result (plain_task task.new ≡ plain_task task.old) }
{
    let branch = arm_taken(task, arms, otherwise);
    enter(task, branch)
}

// A value lies in the range between two others (3.5).
fn lies_between(first: Value, last: Value, value: Value) -> bool
    ensures { result ≡ lies_between first last value }
{
    position_of(first) <= position_of(value) && position_of(value) <= position_of(last)
}

// The end of a choice's range: a single value is its own.
fn choice_end(task: &TaskState, last: &Option<Expr>, first: Value) -> Result<Value, Raised>
    ensures { result ≡ choice_end (plain_task task.now) (option_map plain_expr last.now) first }
{
    match last {
        Some(last) => task.value(last),
        None => Ok(first),
    }
}

// The value is the choice, or lies in its range.
fn choice_fits(task: &TaskState, value: Value, choice: &CaseChoice) -> Result<bool, Raised>
    ensures { result ≡ choice_fits (plain_task task.now) value (plain_choice choice.now) }
{
    match task.value(&choice.first) {
        Ok(first) => match choice_end(task, &choice.last, first) {
            Ok(last) => Ok(lies_between(first, last, value)),
            Err(raised) => Err(raised),
        },
        Err(raised) => Err(raised),
    }
}

// One of these choices fits the value.
fn choices_fit(task: &TaskState, value: Value, choices: &[CaseChoice]) -> Result<bool, Raised>
    ensures { result ≡ choices_fit (plain_task task.now) value (map plain_choice choices.now) }
{
    for choice in choices {
        match choice_fits(task, value, choice) {
            Ok(fits) => {
                if fits {
                    return Ok(true);
                }
            }
            Err(raised) => return Err(raised),
        }
    }
    Ok(false)
}

// The statements of the first arm with a choice for the value, and else those of `when others`.
fn case_taken<'p>(
    task: &TaskState<'p>,
    value: Value,
    arms: &'p [CaseArm],
    others: &'p Option<Vec<Stmt>>,
) -> Result<&'p [Stmt], Raised>
    ensures { seen_branch result ≡ branch_in (case_taken (plain_task task.now) value (case_arms_of (map plain_case_arm arms.now)) (seen_maybe others.now)) }
{
    for case_arm in arms {
        match choices_fit(task, value, &case_arm.choices) {
            Ok(fits) => {
                if fits {
                    return Ok(&case_arm.stmts);
                }
            }
            Err(raised) => return Err(raised),
        }
    }
    Ok(stmts_or_none(others))
}

/// The step of a case statement, into the arm that is taken (5.4). It fails by want of memory alone.
pub fn step_case<'p>(
    task: &mut TaskState<'p>,
    selector: &Expr,
    arms: &'p [CaseArm],
    others: &'p Option<Vec<Stmt>>,
) -> Result<(), Memory>
    ensures ok { OnOk result (plain_task task.new ≡ case_step (plain_expr selector.now) (case_arms_of (map plain_case_arm arms.now)) (seen_maybe others.now) (behind_of (plain_task task.old)) (plain_task task.old)) }
    ensures err { OnErr result (plain_task task.new ≡ plain_task task.old) }
{
    match task.value(selector) {
        Ok(value) => {
            let branch = case_taken(task, value, arms, others);
            enter(task, branch)
        }
        Err(raised) => {
            task.raise(raised);
            Ok(())
        }
    }
}
