// The same statements that hold no statements.

ghost use Rattle.std.specs.Prelude.{◌≡◌, ◌↔◌, IsTrue};
ghost use Rattle.ada_tree.specs.PlainStmt.{plain_stmt};
ghost use Rattle.ada_tree.specs.Same.{SameStmt};
ghost use Rattle.ada_tree.specs.inner.SimpleStmt.{IsSimple};

use crate::expressions::{
    same_call, same_callees, same_expr, same_label, same_option, same_parts, same_target,
};
use ada_tree::{Names, Stmt, StmtKind};

// Whether two statements are the same, of which the first holds no other.
#[tactic(auto, using(crate::proofs::expressions::SameLemmas::places, crate::proofs::expressions::Joined::joined, ada_tree::proofs::Rows::rows))]
pub(crate) fn same_simple(left: &Names, right: &Names, a: &Stmt, b: &Stmt) -> bool
    requires { IsSimple (plain_stmt a.now) }
    ensures { IsTrue result ↔ SameStmt left.now right.now (plain_stmt a.now) (plain_stmt b.now) }
{
    match &a.kind {
        StmtKind::Null => match &b.kind {
            StmtKind::Null => true,
            _ => false,
        },
        StmtKind::Assign { target, value } => match &b.kind {
            StmtKind::Assign {
                target: t,
                value: v,
            } => same_target(left, right, target, t) & same_expr(left, right, value, v),
            _ => false,
        },
        StmtKind::Delay { thousandths } => match &b.kind {
            StmtKind::Delay { thousandths: t } => *thousandths == *t,
            _ => false,
        },
        StmtKind::Exit { name, test } => match &b.kind {
            StmtKind::Exit { name: n, test: t } => {
                same_label(left, right, *name, *n) & same_option(left, right, test, t)
            }
            _ => false,
        },
        StmtKind::Raise { name } => match &b.kind {
            StmtKind::Raise { name: n } => same_label(left, right, *name, *n),
            _ => false,
        },
        StmtKind::Abort { names } => match &b.kind {
            StmtKind::Abort { names: n } => same_callees(left, right, names, n),
            _ => false,
        },
        StmtKind::Call(a) => match &b.kind {
            StmtKind::Call(b) => same_call(left, right, a, b),
            _ => false,
        },
        StmtKind::Put { parts } => match &b.kind {
            StmtKind::Put { parts: p } => same_parts(left, right, parts, p),
            _ => false,
        },
        StmtKind::PutLine { parts } => match &b.kind {
            StmtKind::PutLine { parts: p } => same_parts(left, right, parts, p),
            _ => false,
        },
        StmtKind::NewLine => match &b.kind {
            StmtKind::NewLine => true,
            _ => false,
        },
        StmtKind::Get { target } => match &b.kind {
            StmtKind::Get { target: t } => same_target(left, right, target, t),
            _ => false,
        },
        _ => unreachable!(),
    }
}
