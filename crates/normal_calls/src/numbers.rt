// The numbers of the variables of a call: those of its indices, then those of its actuals, then that of its flag.

ghost use Rattle.std.specs.Prelude.{◌≡◌, ◌+◌, if◌then◌else◌, IfOk, length};
ghost use Rattle.ada_tree.specs.PlainStmt.{plain_call, plain_callee};
ghost use Rattle.normal_model.specs.Calls.{actual_number, flag_number, index_number};
ghost use Rattle.normal_model.specs.Members.{callee_kept};

use crate::called::{count_called, index_called};
use ada_tree::{Call, Callee, Memory, Span};
use normal_lookups::pieces::{Meanings, following, moving_index};

// The number behind that of a variable that is there or not.
fn behind(number: u32, is_there: bool) -> Result<u32, Memory>
    ensures { IfOk result (λ next. next ≡ (if is_there then number + 1 else number)) }
{
    if is_there {
        following(number)
    } else {
        Ok(number)
    }
}

/// The number of the variable at a place behind another.
pub(crate) fn number_at(number: u32, place: usize) -> Result<u32, Memory>
    ensures { IfOk result (λ n. n ≡ number + place) }
{
    match u32::try_from(place) {
        Ok(place) => match number.checked_add(place) {
            Some(sum) => Ok(sum),
            None => Err(Memory),
        },
        Err(_) => Err(Memory),
    }
}

/// The number behind that of the variable of a callee's index.
pub(crate) fn behind_callee<M: Meanings>(
    m: &M,
    number: u32,
    callee: &Callee,
    span: Span,
) -> Result<u32, Memory>
    requires { M.fits m.now }
    ensures { IfOk result (λ n. n ≡ number + length (callee_kept (M.setting m.now) span (plain_callee callee.now))) }
{
    behind(number, moving_index(m, &callee.index).is_some())
}

/// The number of the variable of a family's index.
pub(crate) fn index_number<M: Meanings>(
    m: &M,
    number: u32,
    call: &Call,
    span: Span,
) -> Result<u32, Memory>
    requires { M.fits m.now }
    ensures { IfOk result (λ n. n ≡ index_number (M.setting m.now) span (plain_call call.now) number) }
{
    behind_callee(m, number, &call.task, span)
}

/// The number of the variable of the first actual.
pub(crate) fn actual_number<M: Meanings>(
    m: &M,
    number: u32,
    call: &Call,
    span: Span,
) -> Result<u32, Memory>
    requires { M.fits m.now }
    ensures { IfOk result (λ n. n ≡ actual_number (M.setting m.now) span (plain_call call.now) number) }
{
    let index = index_number(m, number, call, span)?;
    behind(index, index_called(m, call).is_some())
}

/// The number of the variable that tells which part of a select came.
pub(crate) fn flag_number<M: Meanings>(
    m: &M,
    number: u32,
    call: &Call,
    span: Span,
) -> Result<u32, Memory>
    requires { M.fits m.now }
    ensures { IfOk result (λ n. n ≡ flag_number (M.setting m.now) span (plain_call call.now) number) }
{
    let first = actual_number(m, number, call, span)?;
    number_at(first, count_called(m, call))
}
