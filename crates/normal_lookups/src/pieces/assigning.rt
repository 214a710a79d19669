// Variables of the normal form, and assignments to them.

ghost use Rattle.std.specs.Prelude.{◌≡◌, ◌+◌, IfOk, OnOk, option_copied, option_map};
ghost use Rattle.ada_tree.specs.PlainExpr.{plain_expr};
ghost use Rattle.ada_tree.specs.PlainStmt.{plain_stmt, seen};
ghost use Rattle.ada_stmt_copy.specs.expressions.Parts.{OkWith};
ghost use Rattle.task_model.specs.Frames.{in_front};
ghost use Rattle.normal_model.specs.Making.{assignment, moving, one, variable};
ghost use Rattle.normal_model.specs.Names.{variable_name};
ghost use Rattle.normal_model.specs.Ranges.{word_at};

use crate::pieces::Meanings;
use crate::pieces::placing::push_made;
use ada_stmt_copy::expressions::ExprCopy;
use ada_tree::{Expr, Memory, Span, Stmt, Word};
use std::alloc::Global;
use tree_rewriting::making::{assignment_to, name_expr};

/// The number behind another, for which there is no room behind the last of 32 bits.
pub fn following(number: u32) -> Result<u32, Memory>
    ensures { IfOk result (λ next. next ≡ number + 1) }
{
    match number.checked_add(1) {
        Some(next) => Ok(next),
        None => Err(Memory),
    }
}

// The name of a variable at a place.
fn variable_word<M: Meanings>(m: &M, number: u32, span: Span) -> Result<Word, Memory>
    requires { M.fits m.now }
    ensures { IfOk result (λ w. w ≡ word_at span (variable_name (M.setting m.now) number)) }
{
    match m.variable(number) {
        Ok(name) => Ok(Word { name, span }),
        Err(e) => Err(e),
    }
}

/// A variable, by its number from 0.
pub fn variable_expr<M: Meanings>(m: &M, number: u32, span: Span) -> Result<Expr, Memory>
    requires { M.fits m.now }
    ensures { IfOk result (λ made. plain_expr made ≡ variable (M.setting m.now) span number) }
{
    match m.variable(number) {
        Ok(name) => Ok(name_expr(name, span)),
        Err(e) => Err(e),
    }
}

/// The assignment of a value to a variable.
pub fn assigned_stmt<M: Meanings>(
    m: &M,
    number: u32,
    value: Result<Expr, Memory>,
    span: Span,
) -> Result<Stmt, Memory>
    requires { M.fits m.now }
    ensures { IfOk result (λ made. OkWith value (λ v. plain_stmt made ≡ assignment (M.setting m.now) span number (plain_expr v))) }
{
    assignment_to(variable_word(m, number, span), value, span)
}

/// The assignment of a value to a variable goes behind other statements.
pub fn push_assigned<M: Meanings>(
    m: &M,
    number: u32,
    value: Result<Expr, Memory>,
    span: Span,
    out: &mut Vec<Stmt>,
) -> Result<(), Memory>
    requires { M.fits m.now }
    ensures { OnOk result (OkWith value (λ v. seen out.new.items ≡ in_front (seen out.old.items) (one (assignment (M.setting m.now) span number (plain_expr v))))) }
{
    push_made(out, assigned_stmt(m, number, value, span))
}

/// The assignment of an expression to a variable goes behind other statements; the expression stays where it stands.
pub fn push_copy<M: Meanings>(
    alloc: Global,
    m: &M,
    number: u32,
    value: &Expr,
    span: Span,
    out: &mut Vec<Stmt>,
) -> Result<(), Memory>
    requires { M.fits m.now }
    ensures { OnOk result (seen out.new.items ≡ in_front (seen out.old.items) (one (assignment (M.setting m.now) span number (plain_expr value.now)))) }
{
    push_assigned(m, number, value.copy(alloc), span, out)
}

/// The index that moves in front of its statement: one that is not static.
pub fn moving_index<'a, M: Meanings>(m: &M, index: &'a Option<Expr>) -> Option<&'a Expr>
    requires { M.fits m.now }
    ensures { option_map plain_expr (option_copied result) ≡ moving (M.setting m.now).types (option_map plain_expr index.now) }
{
    match index {
        Some(expr) => { if m.is_static(expr) { None } else { Some(expr) } }
        None => None,
    }
}
