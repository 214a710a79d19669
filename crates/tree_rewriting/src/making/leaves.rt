// Nodes that hold no other tree.

ghost use Rattle.std.specs.Prelude.{◌≡◌, Some, None};
ghost use Rattle.ada_tree.specs.PlainExpr.{plain_expr, EInteger, EName, EAttribute};
ghost use Rattle.ada_tree.specs.PlainStmt.{plain_callee, plain_stmt, SNull, SDelay, SExit, SRaise};

use ada_tree::{Callee, Expr, ExprKind, NameId, Span, Stmt, StmtKind, Word};

/// A name.
pub fn name_expr(name: NameId, span: Span) -> Expr
    ensures { plain_expr result ≡ EName name span }
{
    Expr {
        kind: ExprKind::Name(name),
        span,
    }
}

/// An integer literal.
pub fn integer_expr(value: u32, span: Span) -> Expr
    ensures { plain_expr result ≡ EInteger value span }
{
    Expr {
        kind: ExprKind::Integer(value),
        span,
    }
}

/// An attribute without an argument.
pub fn attribute_expr(mark: Word, word: Word, span: Span) -> Expr
    ensures { plain_expr result ≡ EAttribute mark word span }
{
    Expr {
        kind: ExprKind::Attribute {
            mark,
            word,
            arg: None,
        },
        span,
    }
}

/// A task by its name.
pub fn callee_named(name: Word) -> Callee
    ensures { plain_callee result ≡ record { name = name; index = None } }
{
    Callee { name, index: None }
}

/// `null;`
pub fn null_stmt(span: Span) -> Stmt
    ensures { plain_stmt result ≡ SNull span }
{
    Stmt {
        kind: StmtKind::Null,
        span,
    }
}

/// A raise statement of the exception of a name.
pub fn raise_stmt(name: Word, span: Span) -> Stmt
    ensures { plain_stmt result ≡ SRaise (Some name) span }
{
    Stmt {
        kind: StmtKind::Raise { name: Some(name) },
        span,
    }
}

/// `raise;`
pub fn reraise_stmt(span: Span) -> Stmt
    ensures { plain_stmt result ≡ SRaise None span }
{
    Stmt {
        kind: StmtKind::Raise { name: None },
        span,
    }
}

/// A delay statement, of thousandths of a second.
pub fn delay_stmt(thousandths: u32, span: Span) -> Stmt
    ensures { plain_stmt result ≡ SDelay thousandths span }
{
    Stmt {
        kind: StmtKind::Delay { thousandths },
        span,
    }
}

/// An exit statement without a condition.
pub fn exit_stmt(name: Option<Word>, span: Span) -> Stmt
    ensures { plain_stmt result ≡ SExit name None span }
{
    Stmt {
        kind: StmtKind::Exit { name, test: None },
        span,
    }
}
