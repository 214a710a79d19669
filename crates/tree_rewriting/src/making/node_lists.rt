// Lists of nodes: of one, with one more, and moved from where they stand.

ghost use Rattle.std.specs.Prelude.{◌≡◌, ◌++◌, ◌∷◌, [], true, None, Some, IfOk, OnOk, is_some};
ghost use Rattle.ada_tree.specs.PlainStmt.{plain_body};
ghost use Rattle.ada_stmt_copy.specs.expressions.Parts.{OkWith};

use crate::making::leaves::null_stmt;
use ada_stmt_copy::expressions::{put, there};
use ada_tree::{Alt, Args, Arm, Body, CaseArm, Expr, Formal, Handler, Memory, Span, Stmt};
use std::alloc::Global;
use std::mem;

// A list of one part.
pub(crate) fn one<T: Drop>(alloc: Global, part: Result<T, Memory>) -> Result<Vec<T>, Memory>
    ensures { IfOk result (λ made. OkWith part (λ x. made.items ≡ x ∷ [])) }
{
    let mut made = Vec::new(alloc);
    put(&mut made, part)?;
    Ok(made)
}

// What stands in another list goes behind a list, where what came before went well.
pub(crate) fn append<T: Drop>(
    list: &mut Vec<T>,
    more: Vec<T>,
    done: Result<(), Memory>,
) -> Result<(), Memory>
    ensures { OnOk result (OkWith done (λ _. list.new.items ≡ list.old.items ++ more.items)) }
{
    match done {
        Ok(()) => {
            let mut more = more;
            Ok(list.append(&mut more)?)
        }
        Err(e) => Err(e),
    }
}

// A list that was filled, where that went well.
pub(crate) fn keep<T: Drop>(list: Vec<T>, done: Result<(), Memory>) -> Result<Vec<T>, Memory>
    ensures { IfOk result (λ made. OkWith done (λ _. made.items ≡ list.items)) }
{
    match done {
        Ok(()) => Ok(list),
        Err(e) => Err(e),
    }
}

/// A list of one expression.
pub fn one_expr(alloc: Global, part: Result<Expr, Memory>) -> Result<Vec<Expr>, Memory>
    ensures { IfOk result (λ made. OkWith part (λ x. made.items ≡ x ∷ [])) }
{
    one(alloc, part)
}

/// A list of one statement.
pub fn one_stmt(alloc: Global, part: Result<Stmt, Memory>) -> Result<Vec<Stmt>, Memory>
    ensures { IfOk result (λ made. OkWith part (λ x. made.items ≡ x ∷ [])) }
{
    one(alloc, part)
}

/// A list of one condition with its statements.
pub fn one_arm(alloc: Global, part: Result<Arm, Memory>) -> Result<Vec<Arm>, Memory>
    ensures { IfOk result (λ made. OkWith part (λ x. made.items ≡ x ∷ [])) }
{
    one(alloc, part)
}

/// A list of one alternative of a selective wait.
pub fn one_alt(alloc: Global, part: Result<Alt, Memory>) -> Result<Vec<Alt>, Memory>
    ensures { IfOk result (λ made. OkWith part (λ x. made.items ≡ x ∷ [])) }
{
    one(alloc, part)
}

/// A list of one declaration of formals.
pub fn one_formal(alloc: Global, part: Result<Formal, Memory>) -> Result<Vec<Formal>, Memory>
    ensures { IfOk result (λ made. OkWith part (λ x. made.items ≡ x ∷ [])) }
{
    one(alloc, part)
}

/// A list of one handler.
pub fn one_handler(alloc: Global, part: Result<Handler, Memory>) -> Result<Vec<Handler>, Memory>
    ensures { IfOk result (λ made. OkWith part (λ x. made.items ≡ x ∷ [])) }
{
    one(alloc, part)
}

/// An expression behind others.
pub fn push_expr(list: &mut Vec<Expr>, part: Result<Expr, Memory>) -> Result<(), Memory>
    ensures { OnOk result (OkWith part (λ x. list.new.items ≡ list.old.items ++ x ∷ [])) }
{
    put(list, part)
}

/// An arm of a case statement behind others.
pub fn push_case_arm(list: &mut Vec<CaseArm>, part: Result<CaseArm, Memory>) -> Result<(), Memory>
    ensures { OnOk result (OkWith part (λ x. list.new.items ≡ list.old.items ++ x ∷ [])) }
{
    put(list, part)
}

/// A condition with its statements behind others.
pub fn push_arm(list: &mut Vec<Arm>, part: Result<Arm, Memory>) -> Result<(), Memory>
    ensures { OnOk result (OkWith part (λ x. list.new.items ≡ list.old.items ++ x ∷ [])) }
{
    put(list, part)
}

/// An alternative of a selective wait behind others.
pub fn push_alt(list: &mut Vec<Alt>, part: Result<Alt, Memory>) -> Result<(), Memory>
    ensures { OnOk result (OkWith part (λ x. list.new.items ≡ list.old.items ++ x ∷ [])) }
{
    put(list, part)
}

/// A declaration of formals behind others.
pub fn push_formal(list: &mut Vec<Formal>, part: Result<Formal, Memory>) -> Result<(), Memory>
    ensures { OnOk result (OkWith part (λ x. list.new.items ≡ list.old.items ++ x ∷ [])) }
{
    put(list, part)
}

/// A statement behind others.
pub fn push_stmt(list: &mut Vec<Stmt>, part: Result<Stmt, Memory>) -> Result<(), Memory>
    ensures { OnOk result (OkWith part (λ x. list.new.items ≡ list.old.items ++ x ∷ [])) }
{
    put(list, part)
}

/// A statement, taken from where it stands, behind others. A `null;` is left there.
pub fn push_taken_stmt(list: &mut Vec<Stmt>, stmt: &mut Stmt) -> Result<(), Memory>
    ensures { OnOk result (list.new.items ≡ list.old.items ++ stmt.old ∷ []) }
{
    push_stmt(
        list,
        Ok(mem::replace(stmt, null_stmt(Span { start: 0, end: 0 }))),
    )
}

/// The statements of another list go behind those of a list, where what came before went well; nothing is copied.
pub fn append_stmts(
    list: &mut Vec<Stmt>,
    more: Vec<Stmt>,
    done: Result<(), Memory>,
) -> Result<(), Memory>
    ensures { OnOk result (OkWith done (λ _. list.new.items ≡ list.old.items ++ more.items)) }
{
    append(list, more, done)
}

/// Expressions that were put into a list, where that went well.
pub fn keep_exprs(list: Vec<Expr>, done: Result<(), Memory>) -> Result<Vec<Expr>, Memory>
    ensures { IfOk result (λ made. OkWith done (λ _. made.items ≡ list.items)) }
{
    keep(list, done)
}

/// Statements that were put into a list, where that went well.
pub fn keep_stmts(list: Vec<Stmt>, done: Result<(), Memory>) -> Result<Vec<Stmt>, Memory>
    ensures { IfOk result (λ made. OkWith done (λ _. made.items ≡ list.items)) }
{
    keep(list, done)
}

/// Arms of a case statement that were put into a list, where that went well.
pub fn keep_case_arms(list: Vec<CaseArm>, done: Result<(), Memory>) -> Result<Vec<CaseArm>, Memory>
    ensures { IfOk result (λ made. OkWith done (λ _. made.items ≡ list.items)) }
{
    keep(list, done)
}

/// Conditions with their statements that were put into a list, where that went well.
pub fn keep_arms(list: Vec<Arm>, done: Result<(), Memory>) -> Result<Vec<Arm>, Memory>
    ensures { IfOk result (λ made. OkWith done (λ _. made.items ≡ list.items)) }
{
    keep(list, done)
}

/// Alternatives of a selective wait that were put into a list, where that went well.
pub fn keep_alts(list: Vec<Alt>, done: Result<(), Memory>) -> Result<Vec<Alt>, Memory>
    ensures { IfOk result (λ made. OkWith done (λ _. made.items ≡ list.items)) }
{
    keep(list, done)
}

/// Declarations of formals that were put into a list, where that went well.
pub fn keep_formals(list: Vec<Formal>, done: Result<(), Memory>) -> Result<Vec<Formal>, Memory>
    ensures { IfOk result (λ made. OkWith done (λ _. made.items ≡ list.items)) }
{
    keep(list, done)
}

/// The statements of a list, of which it keeps none; nothing is copied.
pub fn take_stmts(alloc: Global, list: &mut Vec<Stmt>) -> Vec<Stmt>
    ensures taken { result.items ≡ list.old.items }
    ensures left { list.new.items ≡ [] }
{
    mem::replace(list, Vec::new(alloc))
}

/// Statements that may be left out, of which none stay.
pub fn take_maybe(place: &mut Option<Vec<Stmt>>) -> Option<Vec<Stmt>>
    ensures taken { result ≡ place.old }
    ensures left { place.new ≡ None }
{
    mem::replace(place, None)
}

/// The statements of a body with their handlers, of which none stay.
pub fn take_body(alloc: Global, body: &mut Body) -> Body
    ensures { plain_body result ≡ plain_body body.old }
{
    let empty = Body {
        stmts: Vec::new(alloc),
        handlers: Vec::new(alloc),
    };
    mem::replace(body, empty)
}

/// A list of expressions that may be left out, and is there.
pub fn some_exprs(part: Result<Vec<Expr>, Memory>) -> Result<Option<Vec<Expr>>, Memory>
    ensures { IfOk result (λ made. OkWith part (λ x. made ≡ Some x)) }
{
    there(part)
}

/// Statements that may be left out, and are there.
pub fn some_stmts(part: Result<Vec<Stmt>, Memory>) -> Result<Option<Vec<Stmt>>, Memory>
    ensures { IfOk result (λ made. OkWith part (λ x. made ≡ Some x)) }
{
    there(part)
}

/// An expression that may be left out, and is there.
pub fn some_expr(part: Result<Expr, Memory>) -> Result<Option<Expr>, Memory>
    ensures { IfOk result (λ made. OkWith part (λ x. made ≡ Some x)) }
{
    there(part)
}

/// The lists of a call that may be left out, and are there.
pub fn some_args(part: Result<Args, Memory>) -> Result<Option<Args>, Memory>
    ensures { IfOk result (λ made. OkWith part (λ x. made ≡ Some x)) }
{
    there(part)
}

// A part takes the place of what stands there, if anything does.
fn put_there<T: Drop>(place: &mut Option<T>, part: Result<T, Memory>) -> Result<(), Memory>
    ensures { OnOk result (OkWith part (λ x. place.new ≡ Some x)) }
{
    match part {
        Ok(part) => {
            *place = Some(part);
            Ok(())
        }
        Err(e) => Err(e),
    }
}

/// An expression takes the place of what stands there, if anything does.
pub fn put_expr(place: &mut Option<Expr>, part: Result<Expr, Memory>) -> Result<(), Memory>
    ensures { OnOk result (OkWith part (λ x. place.new ≡ Some x)) }
{
    put_there(place, part)
}

// What stands in a place, which is filled where all went well.
fn keep_there<T: Drop>(place: Option<T>, done: Result<(), Memory>) -> Result<T, Memory>
    requires { OnOk done (is_some place ≡ true) }
    ensures { IfOk result (λ made. OkWith done (λ _. place ≡ Some made)) }
{
    match done {
        Ok(()) => match place {
            Some(part) => Ok(part),
            None => unreachable!(),
        },
        Err(e) => Err(e),
    }
}

/// The expression that was put into a place, where that went well, which asks that one stands there then.
pub fn keep_expr(place: Option<Expr>, done: Result<(), Memory>) -> Result<Expr, Memory>
    requires { OnOk done (is_some place ≡ true) }
    ensures { IfOk result (λ made. OkWith done (λ _. place ≡ Some made)) }
{
    keep_there(place, done)
}
