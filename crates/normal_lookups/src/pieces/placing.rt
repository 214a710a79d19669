// Statements that go behind others, as rows.

ghost use Rattle.std.specs.Prelude.{◌≡◌, OnOk};
ghost use Rattle.ada_tree.specs.PlainStmt.{plain_stmt, seen};
ghost use Rattle.ada_stmt_copy.specs.expressions.Parts.{OkWith};
ghost use Rattle.task_model.specs.Frames.{in_front};
ghost use Rattle.normal_model.specs.Making.{one, or_null};

use ada_tree::{Memory, Span, Stmt};
use tree_rewriting::making::{append_stmts, null_stmt, push_stmt, push_taken_stmt};

/// A statement behind others.
pub fn push_made(out: &mut Vec<Stmt>, stmt: Result<Stmt, Memory>) -> Result<(), Memory>
    ensures { OnOk result (OkWith stmt (λ x. seen out.new.items ≡ in_front (seen out.old.items) (one (plain_stmt x)))) }
{
    push_stmt(out, stmt)
}

/// A statement, taken from where it stands, behind others.
pub fn push_taken(out: &mut Vec<Stmt>, stmt: &mut Stmt) -> Result<(), Memory>
    ensures { OnOk result (seen out.new.items ≡ in_front (seen out.old.items) (one (plain_stmt stmt.old))) }
{
    push_taken_stmt(out, stmt)
}

/// Statements behind others, where what came before went well.
pub fn append_row(
    out: &mut Vec<Stmt>,
    more: Vec<Stmt>,
    done: Result<(), Memory>,
) -> Result<(), Memory>
    ensures { OnOk result (OkWith done (λ _. seen out.new.items ≡ in_front (seen out.old.items) (seen more.items))) }
{
    append_stmts(out, more, done)
}

/// Where nothing stands, `null;` does.
pub fn fill_empty(stmts: &mut Vec<Stmt>, span: Span) -> Result<(), Memory>
    ensures { OnOk result (seen stmts.new.items ≡ or_null span (seen stmts.old.items)) }
{
    if stmts.as_slice().is_empty() {
        push_made(stmts, Ok(null_stmt(span)))
    } else {
        Ok(())
    }
}
