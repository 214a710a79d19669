// Entry calls.

ghost use Rattle.std.specs.Prelude.{◌≡◌, IfOk, map, option_map};
ghost use Rattle.ada_tree.specs.PlainExpr.{plain_expr};
ghost use Rattle.ada_tree.specs.PlainStmt.{plain_arm, plain_call, plain_stmt, seen, arms_of, SCall};
ghost use Rattle.ada_stmt_copy.specs.expressions.Parts.{OkWith};
ghost use Rattle.task_model.specs.Setting.{is_family};
ghost use Rattle.replay_asking.specs.Called.{task_called, entry_called, lists_called, double_word, double_call, is_called, failing, call_arms, plain_image, else_part, delay_part, conditional_image, timed_image};
ghost use Rattle.replay_asking.specs.Looked.{voice_of};

use crate::Speaker;
use crate::making::{arms_before, before};
use crate::saying::{ask_which, done};
use crate::serving::{entry_of, saying_so};
use crate::testing::is_at;
use ada_stmt_copy::building::{arm_of, call_of, conditional_of, timed_of};
use ada_stmt_copy::expressions::ExprCopy;
use ada_tree::{Arm, Call, Expr, Memory, NameId, Span, Stmt, Word};
use control_script::{KIND_CALL_ELSE, KIND_EXPIRE, KIND_FAIL, KIND_START};
use std::alloc::Global;
use task_links::TaskNames;
use tree_rewriting::making::{one_arm, one_stmt};

/// The first task of that name.
pub fn task_called(numbers: &TaskNames, name: NameId) -> u32
    ensures { result ≡ task_called numbers.now name }
{
    match numbers.task_named(name) {
        Some(task) => task,
        None => 0,
    }
}

// The entry that is called.
fn entry_called(x: &Speaker, call: &Call) -> u32
    ensures { result ≡ entry_called (voice_of x.now) (plain_call call.now) }
{
    entry_of(
        x.numbers,
        task_called(x.numbers, call.task.name.name),
        call.entry.name,
    )
}

// Whether an entry is a family.
fn is_family(numbers: &TaskNames, entry: u32) -> bool
    ensures { result ≡ is_family numbers.now entry }
{
    match numbers.numbers().entry(entry) {
        Some(info) => info.family,
        None => false,
    }
}

// The index of a call of an entry.
fn index_called<'a>(x: &Speaker, call: &'a Call) -> Option<&'a Expr>
    ensures { option_map (λ i. plain_expr i.now) result ≡ (lists_called (voice_of x.now) (plain_call call.now)).index }
{
    if !is_family(x.numbers, entry_called(x, call)) {
        return None;
    }
    match &call.args {
        Some(args) => match args.first.as_slice() {
            [first, ..] => Some(first),
            [] => None,
        },
        None => None,
    }
}

/// The word of an entry's double.
pub fn double_word(x: &Speaker, word: Word) -> Word
    ensures { result ≡ double_word (voice_of x.now) word }
{
    let name = match x.tables.doubles.get(word.name.0 as usize) {
        Some(name) => *name,
        None => x.tables.other,
    };
    Word {
        name,
        span: word.span,
    }
}

// The same call of the entry's double.
fn double_call(alloc: Global, x: &Speaker, call: &Call) -> Result<Call, Memory>
    ensures { IfOk result (λ made. plain_call made ≡ double_call (voice_of x.now) (plain_call call.now)) }
{
    match call.copy(alloc) {
        Ok(copy) => Ok(Call {
            task: copy.task,
            entry: double_word(x, copy.entry),
            args: copy.args,
        }),
        Err(e) => Err(e),
    }
}

// The permit is for an event of this kind of this call.
fn is_called(alloc: Global, x: &Speaker, k: u32, call: &Call, s: Span) -> Result<Expr, Memory>
    ensures { IfOk result (λ made. plain_expr made ≡ is_called (voice_of x.now) s k (plain_call call.now)) }
{
    is_at(alloc, x, k, entry_called(x, call), index_called(x, call), s)
}

// The branch of the failing call.
fn failing(alloc: Global, x: &Speaker, call: &Call, s: Span) -> Result<Vec<Stmt>, Memory>
    ensures { IfOk result (λ made. seen made.items ≡ failing (voice_of x.now) s (plain_call call.now)) }
{
    let double = call_of(double_call(alloc, x, call), s);
    one_stmt(alloc, saying_so(alloc, x, double, s))
}

// The branches of a call of any form: that of the rendezvous, that of the failing call, and others.
fn call_arms(
    alloc: Global,
    x: &Speaker,
    call: &Call,
    met: Result<Vec<Stmt>, Memory>,
    others: Result<Vec<Arm>, Memory>,
    s: Span,
) -> Result<Vec<Arm>, Memory>
    ensures { IfOk result (λ made. OkWith met (λ m. OkWith others (λ o. arms_of (map plain_arm made.items) ≡ call_arms (voice_of x.now) s (plain_call call.now) (seen m.items) (arms_of (map plain_arm o.items))))) }
{
    let failed = arm_of(
        is_called(alloc, x, KIND_FAIL, call, s),
        failing(alloc, x, call, s),
    );
    arms_before(
        alloc,
        arm_of(is_called(alloc, x, KIND_START, call, s), met),
        arms_before(alloc, failed, others),
    )
}

// The call as a statement.
fn call_stmt(alloc: Global, call: &Call, s: Span) -> Result<Stmt, Memory>
    ensures { IfOk result (λ made. plain_stmt made ≡ SCall (plain_call call.now) s) }
{
    call_of(call.copy(alloc), s)
}

/// What stands in the place of a plain call.
pub fn plain_image(alloc: Global, x: &Speaker, call: &Call, s: Span) -> Result<Vec<Stmt>, Memory>
    ensures { IfOk result (λ made. seen made.items ≡ plain_image (voice_of x.now) s (plain_call call.now)) }
{
    let met = one_stmt(alloc, call_stmt(alloc, call, s));
    let arms = call_arms(alloc, x, call, met, Ok(Vec::new(alloc)), s);
    ask_which(alloc, x, arms, s)
}

// The branch of the else part of a conditional call.
fn else_part(
    alloc: Global,
    x: &Speaker,
    call: &Call,
    otherwise: Vec<Stmt>,
    s: Span,
) -> Result<Vec<Stmt>, Memory>
    ensures { IfOk result (λ made. seen made.items ≡ else_part (voice_of x.now) s (plain_call call.now) (seen otherwise.items)) }
{
    let passed = conditional_of(
        double_call(alloc, x, call),
        Ok(Vec::new(alloc)),
        one_stmt(alloc, done(alloc, x, s)),
        s,
    );
    before(alloc, passed, Ok(otherwise))
}

// The branch of the delay of a timed call.
fn delay_part(
    alloc: Global,
    x: &Speaker,
    call: &Call,
    thousandths: u32,
    after: Vec<Stmt>,
    s: Span,
) -> Result<Vec<Stmt>, Memory>
    ensures { IfOk result (λ made. seen made.items ≡ delay_part (voice_of x.now) s (plain_call call.now) thousandths (seen after.items)) }
{
    let passed = timed_of(
        double_call(alloc, x, call),
        Ok(Vec::new(alloc)),
        thousandths,
        one_stmt(alloc, done(alloc, x, s)),
        s,
    );
    before(alloc, passed, Ok(after))
}

/// What stands in the place of a conditional call.
pub fn conditional_image(
    alloc: Global,
    x: &Speaker,
    call: &Call,
    behind: Vec<Stmt>,
    otherwise: Vec<Stmt>,
    s: Span,
) -> Result<Vec<Stmt>, Memory>
    ensures { IfOk result (λ made. seen made.items ≡ conditional_image (voice_of x.now) s (plain_call call.now) (seen behind.items) (seen otherwise.items)) }
{
    let met = before(alloc, call_stmt(alloc, call, s), Ok(behind));
    let part = arm_of(
        is_called(alloc, x, KIND_CALL_ELSE, call, s),
        else_part(alloc, x, call, otherwise, s),
    );
    let arms = call_arms(alloc, x, call, met, one_arm(alloc, part), s);
    ask_which(alloc, x, arms, s)
}

/// What stands in the place of a timed call.
pub fn timed_image(
    alloc: Global,
    x: &Speaker,
    call: &Call,
    behind: Vec<Stmt>,
    thousandths: u32,
    after: Vec<Stmt>,
    s: Span,
) -> Result<Vec<Stmt>, Memory>
    ensures { IfOk result (λ made. seen made.items ≡ timed_image (voice_of x.now) s (plain_call call.now) (seen behind.items) thousandths (seen after.items)) }
{
    let met = before(alloc, call_stmt(alloc, call, s), Ok(behind));
    let part = arm_of(
        is_called(alloc, x, KIND_EXPIRE, call, s),
        delay_part(alloc, x, call, thousandths, after, s),
    );
    let arms = call_arms(alloc, x, call, met, one_arm(alloc, part), s);
    ask_which(alloc, x, arms, s)
}
