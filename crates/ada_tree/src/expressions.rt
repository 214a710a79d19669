// Expressions and what is built of them alone.

use crate::{NameId, Span, Word};

/// An expression. A chain of operators is nested to the left, and a pair of parentheses is a node of its own.
#[cycle(expr)]
pub struct Expr {
    pub kind: ExprKind,
    pub span: Span,
}

impl Drop for Expr {
    #[cycle(expr)]
    fn drop(self) {
        let Expr {
            kind: _kind,
            span: _span,
        } = self;
    }
}

#[cycle(expr)]
pub enum ExprKind {
    Integer(u32),
    Name(NameId),
    /// A component of an array.
    Index {
        name: Word,
        arg: Box<Expr>,
    },
    /// `mark'word` or `mark'word(arg)`.
    Attribute {
        mark: Word,
        word: Word,
        arg: Option<Box<Expr>>,
    },
    Paren(Box<Expr>),
    Unary {
        op: UnaryOp,
        part: Box<Expr>,
    },
    Binary {
        op: BinaryOp,
        left: Box<Expr>,
        right: Box<Expr>,
    },
}

impl Drop for ExprKind {
    #[cycle(expr)]
    fn drop(self) {
        match self {
            ExprKind::Integer(_part) => {}
            ExprKind::Name(_part) => {}
            ExprKind::Index {
                name: _name,
                arg: _arg,
            } => {}
            ExprKind::Attribute {
                mark: _mark,
                word: _word,
                arg: _arg,
            } => {}
            ExprKind::Paren(_part) => {}
            ExprKind::Unary {
                op: _op,
                part: _part,
            } => {}
            ExprKind::Binary {
                op: _op,
                left: _left,
                right: _right,
            } => {}
        }
    }
}

#[derive(Clone, Copy, Debug, PartialEq, Eq)]
pub enum UnaryOp {
    Plus,
    Minus,
    Abs,
    Not,
}

#[derive(Clone, Copy, Debug, PartialEq, Eq)]
pub enum BinaryOp {
    And,
    Or,
    Xor,
    AndThen,
    OrElse,
    Equal,
    NotEqual,
    Less,
    LessEqual,
    Greater,
    GreaterEqual,
    Plus,
    Minus,
    Times,
    Divide,
    Mod,
    Rem,
}

/// `first .. last`.
pub struct Bounds {
    pub first: Expr,
    pub last: Expr,
}

impl Drop for Bounds {
    fn drop(self) {
        let Bounds {
            first: _first,
            last: _last,
        } = self;
    }
}
