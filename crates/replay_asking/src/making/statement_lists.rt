// Rows of statements.

ghost use Rattle.std.specs.Prelude.{◌≡◌, ◌∷◌, ◌++◌, [], IfOk, OnOk};
ghost use Rattle.ada_tree.specs.PlainStmt.{plain_stmt, seen, stmt_then};
ghost use Rattle.task_model.specs.Frames.{in_front};
ghost use Rattle.ada_stmt_copy.specs.expressions.Parts.{OkWith};

use ada_stmt_copy::expressions::{both, put};
use ada_tree::{Memory, Stmt};
use std::alloc::Global;

// A part in front of others.
pub(crate) fn front<T: Drop>(
    alloc: Global,
    part: Result<T, Memory>,
    rest: Result<Vec<T>, Memory>,
) -> Result<Vec<T>, Memory>
    ensures { IfOk result (λ made. OkWith part (λ x. OkWith rest (λ r. made.items ≡ x ∷ r.items))) }
{
    match both(part, rest) {
        Ok((part, rest)) => {
            let mut rest = rest;
            let mut made = Vec::new(alloc);
            made.push(part)?;
            made.append(&mut rest)?;
            Ok(made)
        }
        Err(e) => Err(e),
    }
}

// Parts behind others.
pub(crate) fn append<T: Drop>(list: &mut Vec<T>, more: Result<Vec<T>, Memory>) -> Result<(), Memory>
    ensures { OnOk result (OkWith more (λ m. list.new.items ≡ list.old.items ++ m.items)) }
{
    match more {
        Ok(more) => {
            let mut more = more;
            Ok(list.append(&mut more)?)
        }
        Err(e) => Err(e),
    }
}

// Two lists as one.
pub(crate) fn join<T: Drop>(
    first: Result<Vec<T>, Memory>,
    more: Result<Vec<T>, Memory>,
) -> Result<Vec<T>, Memory>
    ensures { IfOk result (λ made. OkWith first (λ a. OkWith more (λ b. made.items ≡ a.items ++ b.items))) }
{
    match both(first, more) {
        Ok((first, more)) => {
            let mut more = more;
            let mut made = first;
            made.append(&mut more)?;
            Ok(made)
        }
        Err(e) => Err(e),
    }
}

// A list of one part.
pub(crate) fn one<T: Drop>(alloc: Global, part: Result<T, Memory>) -> Result<Vec<T>, Memory>
    ensures { IfOk result (λ made. OkWith part (λ x. made.items ≡ x ∷ [])) }
{
    let mut made = Vec::new(alloc);
    put(&mut made, part)?;
    Ok(made)
}

/// A statement in front of others.
pub fn before(
    alloc: Global,
    part: Result<Stmt, Memory>,
    rest: Result<Vec<Stmt>, Memory>,
) -> Result<Vec<Stmt>, Memory>
    ensures { IfOk result (λ made. OkWith part (λ x. OkWith rest (λ r. seen made.items ≡ stmt_then (plain_stmt x) (seen r.items)))) }
{
    front(alloc, part, rest)
}

/// Statements in front of others.
pub fn joined(
    first: Result<Vec<Stmt>, Memory>,
    more: Result<Vec<Stmt>, Memory>,
) -> Result<Vec<Stmt>, Memory>
    ensures { IfOk result (λ made. OkWith first (λ a. OkWith more (λ b. seen made.items ≡ in_front (seen a.items) (seen b.items)))) }
{
    join(first, more)
}

/// Statements go behind others.
pub fn put_list(out: &mut Vec<Stmt>, more: Result<Vec<Stmt>, Memory>) -> Result<(), Memory>
    ensures { OnOk result (OkWith more (λ m. seen out.new.items ≡ in_front (seen out.old.items) (seen m.items))) }
{
    append(out, more)
}
