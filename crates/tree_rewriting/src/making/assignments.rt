// Assignments, of parts that come as results.

ghost use Rattle.std.specs.Prelude.{◌≡◌, IfOk, Some, None};
ghost use Rattle.ada_tree.specs.PlainExpr.{plain_expr};
ghost use Rattle.ada_tree.specs.PlainStmt.{plain_stmt, SAssign};
ghost use Rattle.ada_stmt_copy.specs.expressions.Parts.{OkWith};

use ada_stmt_copy::expressions::both;
use ada_tree::{Expr, Memory, Span, Stmt, StmtKind, Target, Word};

/// An assignment to the variable of a name.
pub fn assignment(name: Word, value: Result<Expr, Memory>, span: Span) -> Result<Stmt, Memory>
    ensures { IfOk result (λ made. OkWith value (λ v. plain_stmt made ≡ SAssign record { name = name; index = None } (plain_expr v) span)) }
{
    match value {
        Ok(value) => Ok(Stmt {
            kind: StmtKind::Assign {
                target: Target { name, index: None },
                value,
            },
            span,
        }),
        Err(e) => Err(e),
    }
}

/// An assignment to the variable of a name that comes as a result.
pub fn assignment_to(
    name: Result<Word, Memory>,
    value: Result<Expr, Memory>,
    span: Span,
) -> Result<Stmt, Memory>
    ensures { IfOk result (λ made. OkWith name (λ w. OkWith value (λ v. plain_stmt made ≡ SAssign record { name = w; index = None } (plain_expr v) span))) }
{
    match both(name, value) {
        Ok((name, value)) => Ok(Stmt {
            kind: StmtKind::Assign {
                target: Target { name, index: None },
                value,
            },
            span,
        }),
        Err(e) => Err(e),
    }
}

/// An assignment to a component of the array of a name.
pub fn component_assignment(
    name: Word,
    index: Result<Expr, Memory>,
    value: Result<Expr, Memory>,
    span: Span,
) -> Result<Stmt, Memory>
    ensures { IfOk result (λ made. OkWith index (λ i. OkWith value (λ v. plain_stmt made ≡ SAssign record { name = name; index = Some (plain_expr i) } (plain_expr v) span))) }
{
    match both(index, value) {
        Ok((index, value)) => Ok(Stmt {
            kind: StmtKind::Assign {
                target: Target {
                    name,
                    index: Some(index),
                },
                value,
            },
            span,
        }),
        Err(e) => Err(e),
    }
}
