// Statements that go behind others. A rewriter that puts statements by these lets none go itself.

ghost use Rattle.std.specs.Prelude.{◌≡◌, ◌∷◌, ◌++◌, [], OnOk};
ghost use Rattle.ada_tree.specs.PlainStmt.{plain_stmt, seen, stmt_then, no_stmt};
ghost use Rattle.task_model.specs.Frames.{in_front};

use ada_tree::{Memory, Span, Stmt, StmtKind};
use std::mem;

// A part behind others.
fn push<T: Drop>(out: &mut Vec<T>, part: T) -> Result<(), Memory>
    ensures { OnOk result (out.new.items ≡ out.old.items ++ part ∷ []) }
{
    Ok(out.push(part)?)
}

// What stands for a moment where a statement was taken out.
fn nothing() -> Stmt {
    Stmt {
        kind: StmtKind::Null,
        span: Span { start: 0, end: 0 },
    }
}

/// A statement behind others.
pub fn push_stmt(out: &mut Vec<Stmt>, stmt: Stmt) -> Result<(), Memory>
    ensures { OnOk result (seen out.new.items ≡ in_front (seen out.old.items) (stmt_then (plain_stmt stmt) no_stmt)) }
{
    push(out, stmt)
}

/// A statement, taken from where it stands, behind others.
pub fn push_taken(out: &mut Vec<Stmt>, stmt: &mut Stmt) -> Result<(), Memory>
    ensures { OnOk result (seen out.new.items ≡ in_front (seen out.old.items) (stmt_then (plain_stmt stmt.old) no_stmt)) }
{
    push_stmt(out, mem::replace(stmt, nothing()))
}
