// What a task stands at with a synchronizing statement next.

ghost use Rattle.std.specs.Prelude.{◌≡◌, false, ◌<◌, ◌≤◌, ◌+◌, ◌++◌, ◌^◌, suc, List, [], ◌∷◌, Ok, map, length, IfOk, IsOk};
ghost use Rattle.std.specs.Vec.{vec_capacity};
ghost use Rattle.event_machine.specs.declared.Choice.{Choice};
ghost use Rattle.ada_tree.specs.PlainStmt.{no_stmt, plain_accept, plain_alt, plain_call, plain_callee, plain_stmt, alts_of};
ghost use Rattle.ada_value.specs.Values.{and_then};
ghost use Rattle.task_model.specs.Calls.{called};
ghost use Rattle.task_model.specs.Waits.{accept_opened, alternatives_open, choices_of, else_choice};
ghost use Rattle.task_model.specs.Stands.{call_stand, wait_stand, abort_stand, stand_at};
ghost use Rattle.task_waits.specs.Room.{alternatives_in, room_at};
ghost use Rattle.task_waits.specs.Standing.{task_here, stand_as};
ghost use Rattle.task_waits.specs.inner.Choosing.{least_among, opens_or_none, with_choice};

use crate::calls::Here;
use crate::choosing::{Sort, least_duration, member_accepted, put_choice, put_choices};
use ada_tree::{Accept, Alt, Call, Callee, Memory, Stmt, StmtKind};
use ada_value::Raised;
use event_machine::{CallForm, Choice};

/// What a task stands at (9.4, 9.5, 9.7, 9.10): a local step, in which an exception may be raised, or an offer. The choices of a wait
/// stand in a list beside.
#[derive(Clone, Copy, Debug, PartialEq, Eq)]
pub enum Stand {
    /// A local step.
    Step,
    /// A synchronizing statement whose evaluation raises this: a local step too.
    Raises(Raised),
    /// A call of the member `index` of the entry `entry`.
    Call {
        form: CallForm,
        entry: u32,
        index: i32,
    },
    /// A wait.
    Wait,
    /// The end of its innermost accept body.
    Finish,
    /// The end of its own body.
    End,
    /// An abort statement whose next name is this task.
    Abort {
        task: u32,
    },
}

// What a call stands at.
fn call_stand(here: &Here, form: CallForm, call: &Call) -> Stand
    ensures { (choices : List Choice) → stand_as result choices ≡ call_stand form (called here.now.links.now here.now.objects.now (plain_call call.now)) }
{
    match here.called(call) {
        Ok(member) => Stand::Call {
            form,
            entry: member.entry,
            index: member.index,
        },
        Err(raised) => Stand::Raises(raised),
    }
}

// What an abort statement stands at: its first name alone is evaluated.
fn abort_stand(here: &Here, names: &[Callee]) -> Stand
    ensures { (choices : List Choice) → stand_as result choices ≡ abort_stand (task_here here.now) (map plain_callee names.now) }
{
    match names {
        [callee, ..] => match here.task_of(callee) {
            Ok(task) => Stand::Abort { task },
            Err(raised) => Stand::Raises(raised),
        },
        [] => Stand::Step,
    }
}

// What an accept statement stands at.
fn accept_stand(here: &Here, accept: &Accept, choices: &mut Vec<Choice>) -> Result<Stand, Memory>
    ensures ok { IfOk result (λ s. stand_as s choices.new.items ≡ wait_stand false (and_then (accept_opened (task_here here.now) (plain_accept accept.now) no_stmt) (λ o. Ok (o ∷ [])))) }
    ensures reserved { 1 ≤ vec_capacity choices.old → IsOk result }
    ensures same_room { vec_capacity choices.new ≡ vec_capacity choices.old }
{
    choices.clear();
    if choices.capacity() == 0 {
        return Err(Memory);
    }
    match member_accepted(here, accept) {
        Ok(member) => {
            choices.push_reserved(Choice::Accept {
                e: member.entry,
                i: member.index,
            });
            Ok(Stand::Wait)
        }
        Err(raised) => Ok(Stand::Raises(raised)),
    }
}

// The choice of an else part, where there is one.
fn else_choice(has_else: bool) -> Option<Choice>
    ensures { (choices : List Choice) → with_choice choices result ≡ choices ++ else_choice has_else }
{
    if has_else { Some(Choice::Else) } else { None }
}

// All choices of a wait, for which there is room.
fn put_all(here: &Here, alts: &[Alt], has_else: bool, least: Option<u32>, choices: &mut Vec<Choice>)
    requires least { Ok least ≡ and_then (alternatives_open (task_here here.now) (alts_of (map plain_alt alts.now)) 0) (λ all. Ok (least_among None all)) }
    requires few { length alts.now + 1 < 2 ^ 32 }
    requires room { length alts.now + 1 ≤ vec_capacity choices.old }
    requires empty { choices.old.items ≡ [] }
    ensures choices { choices.new.items ≡ choices_of has_else (opens_or_none (alternatives_open (task_here here.now) (alts_of (map plain_alt alts.now)) 0)) }
    ensures same_room { vec_capacity choices.new ≡ vec_capacity choices.old }
{
    put_choices(here, Sort::Accepts, alts, choices);
    put_choice(choices, else_choice(has_else));
    put_choices(here, Sort::Delays { least }, alts, choices);
    put_choices(here, Sort::Terminates, alts, choices);
}

// What a selective wait stands at.
#[tactic(auto, using(crate::proofs::Widths::alternatives_are))]
fn wait_stand(
    here: &Here,
    alts: &[Alt],
    has_else: bool,
    choices: &mut Vec<Choice>,
) -> Result<Stand, Memory>
    ensures ok { IfOk result (λ s. stand_as s choices.new.items ≡ wait_stand has_else (alternatives_open (task_here here.now) (alts_of (map plain_alt alts.now)) 0)) }
    ensures reserved { suc (alternatives_in (alts_of (map plain_alt alts.now))) ≤ vec_capacity choices.old → suc (alternatives_in (alts_of (map plain_alt alts.now))) < 2 ^ 32 → IsOk result }
    ensures same_room { vec_capacity choices.new ≡ vec_capacity choices.old }
{
    choices.clear();
    if alts.len() >= choices.capacity() || alts.len() >= u32::MAX as usize {
        return Err(Memory);
    }
    match least_duration(here, alts) {
        Ok(least) => {
            put_all(here, alts, has_else, least, choices);
            if choices.len() == 0 {
                Ok(Stand::Raises(Raised::Program))
            } else {
                Ok(Stand::Wait)
            }
        }
        Err(raised) => Ok(Stand::Raises(raised)),
    }
}

/// What a task stands at with this statement next (9.5, 9.7, 9.10), where it is a synchronizing one: the offer, or the exception that its
/// evaluation raises; at any other statement it has a local step. The choices of a wait are put in place of what is in the list: the open
/// accepts in written order, the else part, the delays of least duration by their numbers, and terminate. No memory is taken: a list
/// without the room that the statement needs, or a wait of 2 ^ 32 - 1 alternatives, is answered as want of memory.
pub fn stand_at(here: &Here, stmt: &Stmt, choices: &mut Vec<Choice>) -> Result<Stand, Memory>
    ensures ok { IfOk result (λ s. stand_as s choices.new.items ≡ stand_at (task_here here.now) (plain_stmt stmt.now)) }
    ensures reserved { room_at (plain_stmt stmt.now) ≤ vec_capacity choices.old → room_at (plain_stmt stmt.now) < 2 ^ 32 → IsOk result }
    ensures same_room { vec_capacity choices.new ≡ vec_capacity choices.old }
{
    match &stmt.kind {
        StmtKind::Call(call) => Ok(call_stand(here, CallForm::Plain, call)),
        StmtKind::Conditional { call, .. } => { Ok(call_stand(here, CallForm::Conditional, call)) }
        StmtKind::Timed { call, .. } => Ok(call_stand(here, CallForm::Timed, call)),
        StmtKind::Accept(accept) => accept_stand(here, accept, choices),
        StmtKind::Wait { alts, otherwise } => {
            wait_stand(here, alts, otherwise.is_some(), choices)
        }
        StmtKind::Abort { names } => Ok(abort_stand(here, names)),
        _ => Ok(Stand::Step),
    }
}
