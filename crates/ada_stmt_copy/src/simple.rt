// Copies of statements that hold no statements.

ghost use Rattle.std.specs.Prelude.{◌≡◌, IfOk};
ghost use Rattle.ada_tree.specs.PlainStmt.{plain_stmt};
ghost use Rattle.ada_tree.specs.inner.SimpleStmt.{IsSimple};

use crate::building::{abort_of, assign_of, call_of, exit_of, get_of, put_line_of, put_of};
use crate::expressions::{ExprCopy, copy_callees, copy_option, copy_parts};
use ada_tree::{Memory, Stmt, StmtKind};
use std::alloc::Global;

// A copy of a statement that holds no other.
pub(crate) fn copy_simple(alloc: Global, stmt: &Stmt) -> Result<Stmt, Memory>
    requires { IsSimple (plain_stmt stmt.now) }
    ensures { IfOk result (λ copy. plain_stmt copy ≡ plain_stmt stmt.now) }
{
    let span = stmt.span;
    match &stmt.kind {
        StmtKind::Null => Ok(Stmt {
            kind: StmtKind::Null,
            span,
        }),
        StmtKind::Assign { target, value } => {
            assign_of(target.copy(alloc), value.copy(alloc), span)
        }
        StmtKind::Delay { thousandths } => Ok(Stmt {
            kind: StmtKind::Delay {
                thousandths: *thousandths,
            },
            span,
        }),
        StmtKind::Exit { name, test } => exit_of(*name, copy_option(alloc, test), span),
        StmtKind::Raise { name } => Ok(Stmt {
            kind: StmtKind::Raise { name: *name },
            span,
        }),
        StmtKind::Abort { names } => abort_of(copy_callees(alloc, names), span),
        StmtKind::Call(call) => call_of(call.copy(alloc), span),
        StmtKind::Put { parts } => put_of(copy_parts(alloc, parts), span),
        StmtKind::PutLine { parts } => put_line_of(copy_parts(alloc, parts), span),
        StmtKind::NewLine => Ok(Stmt {
            kind: StmtKind::NewLine,
            span,
        }),
        StmtKind::Get { target } => get_of(target.copy(alloc), span),
        _ => unreachable!(),
    }
}
