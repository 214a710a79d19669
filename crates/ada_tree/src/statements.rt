// Statements.

use crate::{Drange, Expr, Span, Word};

/// The statements and the exception handlers of a unit or a block.
#[cycle(stmt)]
pub struct Body {
    pub stmts: Vec<Stmt>,
    pub handlers: Vec<Handler>,
}

impl Drop for Body {
    #[cycle(stmt)]
    fn drop(self) {
        let Body {
            stmts: _stmts,
            handlers: _handlers,
        } = self;
    }
}

/// `when names => stmts`. One with no names is `when others`.
#[cycle(stmt)]
pub struct Handler {
    pub names: Vec<Word>,
    pub stmts: Vec<Stmt>,
    pub span: Span,
}

impl Drop for Handler {
    #[cycle(stmt)]
    fn drop(self) {
        let Handler {
            names: _names,
            stmts: _stmts,
            span: _span,
        } = self;
    }
}

#[cycle(stmt)]
pub struct Stmt {
    pub kind: StmtKind,
    pub span: Span,
}

impl Drop for Stmt {
    #[cycle(stmt)]
    fn drop(self) {
        let Stmt {
            kind: _kind,
            span: _span,
        } = self;
    }
}

/// Durations are in thousandths of a second.
#[cycle(stmt)]
pub enum StmtKind {
    Null,
    Assign {
        target: Target,
        value: Expr,
    },
    Delay {
        thousandths: u32,
    },
    Exit {
        name: Option<Word>,
        test: Option<Expr>,
    },
    Raise {
        name: Option<Word>,
    },
    Abort {
        names: Vec<Callee>,
    },
    Call(Call),
    Accept(Accept),
    /// A selective wait, with its else part.
    Wait {
        alts: Vec<Alt>,
        otherwise: Option<Vec<Stmt>>,
    },
    /// A conditional entry call: the statements behind the call, and the else part.
    Conditional {
        call: Call,
        behind: Vec<Stmt>,
        otherwise: Vec<Stmt>,
    },
    /// A timed entry call: the statements behind the call, and those behind the delay.
    Timed {
        call: Call,
        behind: Vec<Stmt>,
        thousandths: u32,
        after: Vec<Stmt>,
    },
    Put {
        parts: Vec<Part>,
    },
    PutLine {
        parts: Vec<Part>,
    },
    NewLine,
    Get {
        target: Target,
    },
    If {
        arms: Vec<Arm>,
        otherwise: Option<Vec<Stmt>>,
    },
    Case {
        selector: Expr,
        arms: Vec<CaseArm>,
        others: Option<Vec<Stmt>>,
    },
    Block(Body),
    Loop {
        name: Option<Word>,
        scheme: Option<Scheme>,
        stmts: Vec<Stmt>,
    },
}

impl Drop for StmtKind {
    #[cycle(stmt)]
    fn drop(self) {
        match self {
            StmtKind::Null => {}
            StmtKind::Assign {
                target: _target,
                value: _value,
            } => {}
            StmtKind::Delay {
                thousandths: _thousandths,
            } => {}
            StmtKind::Exit {
                name: _name,
                test: _test,
            } => {}
            StmtKind::Raise { name: _name } => {}
            StmtKind::Abort { names: _names } => {}
            StmtKind::Call(_part) => {}
            StmtKind::Accept(_part) => {}
            StmtKind::Wait {
                alts: _alts,
                otherwise: _otherwise,
            } => {}
            StmtKind::Conditional {
                call: _call,
                behind: _behind,
                otherwise: _otherwise,
            } => {}
            StmtKind::Timed {
                call: _call,
                behind: _behind,
                thousandths: _thousandths,
                after: _after,
            } => {}
            StmtKind::Put { parts: _parts } => {}
            StmtKind::PutLine { parts: _parts } => {}
            StmtKind::NewLine => {}
            StmtKind::Get { target: _target } => {}
            StmtKind::If {
                arms: _arms,
                otherwise: _otherwise,
            } => {}
            StmtKind::Case {
                selector: _selector,
                arms: _arms,
                others: _others,
            } => {}
            StmtKind::Block(_part) => {}
            StmtKind::Loop {
                name: _name,
                scheme: _scheme,
                stmts: _stmts,
            } => {}
        }
    }
}

/// A variable or a component.
#[derive(Drop)]
pub struct Target {
    pub name: Word,
    pub index: Option<Expr>,
}

/// A task, or a member of an array of tasks.
#[derive(Drop)]
pub struct Callee {
    pub name: Word,
    pub index: Option<Expr>,
}

/// An entry call.
#[derive(Drop)]
pub struct Call {
    pub task: Callee,
    pub entry: Word,
    pub args: Option<Args>,
}

/// The one or two lists in parentheses behind an entry's name. Of two, the first is the family's index; of one, the tree does not say whether it is that or the actuals.
pub struct Args {
    pub first: Vec<Expr>,
    pub second: Option<Vec<Expr>>,
}

impl Drop for Args {
    fn drop(self) {
        let Args {
            first: _first,
            second: _second,
        } = self;
    }
}

/// An accept statement; `stmts` are those between `do` and `end`.
#[cycle(stmt)]
pub struct Accept {
    pub entry: Word,
    pub index: Option<Expr>,
    pub formals: Vec<Formal>,
    pub stmts: Option<Vec<Stmt>>,
    pub span: Span,
}

impl Drop for Accept {
    #[cycle(stmt)]
    fn drop(self) {
        let Accept {
            entry: _entry,
            index: _index,
            formals: _formals,
            stmts: _stmts,
            span: _span,
        } = self;
    }
}

/// Parameters of one mode and one type.
pub struct Formal {
    pub names: Vec<Word>,
    pub mode: ParMode,
    pub mark: Word,
}

impl Drop for Formal {
    fn drop(self) {
        let Formal {
            names: _names,
            mode: _mode,
            mark: _mark,
        } = self;
    }
}

/// `in`, `out` and `in out`.
#[derive(Clone, Copy, Debug, PartialEq, Eq)]
pub enum ParMode {
    Take,
    Give,
    Both,
}

/// An alternative of a selective wait.
#[cycle(stmt)]
pub struct Alt {
    pub guard: Option<Expr>,
    pub kind: AltKind,
    pub span: Span,
}

impl Drop for Alt {
    #[cycle(stmt)]
    fn drop(self) {
        let Alt {
            guard: _guard,
            kind: _kind,
            span: _span,
        } = self;
    }
}

#[cycle(stmt)]
pub enum AltKind {
    Accept { accept: Accept, stmts: Vec<Stmt> },
    Delay { thousandths: u32, stmts: Vec<Stmt> },
    Terminate,
}

impl Drop for AltKind {
    #[cycle(stmt)]
    fn drop(self) {
        match self {
            AltKind::Accept {
                accept: _accept,
                stmts: _stmts,
            } => {}
            AltKind::Delay {
                thousandths: _thousandths,
                stmts: _stmts,
            } => {}
            AltKind::Terminate => {}
        }
    }
}

/// A part of what PUT writes: the content of a string literal, with one quote for each doubled one, or an expression.
pub enum Part {
    Words { text: String, span: Span },
    Value(Expr),
}

impl Drop for Part {
    fn drop(self) {
        match self {
            Part::Words {
                text: _text,
                span: _span,
            } => {}
            Part::Value(_part) => {}
        }
    }
}

/// `if test then stmts` or `elsif test then stmts`.
#[cycle(stmt)]
pub struct Arm {
    pub test: Expr,
    pub stmts: Vec<Stmt>,
}

impl Drop for Arm {
    #[cycle(stmt)]
    fn drop(self) {
        let Arm {
            test: _test,
            stmts: _stmts,
        } = self;
    }
}

/// `when choices => stmts`.
#[cycle(stmt)]
pub struct CaseArm {
    pub choices: Vec<CaseChoice>,
    pub stmts: Vec<Stmt>,
}

impl Drop for CaseArm {
    #[cycle(stmt)]
    fn drop(self) {
        let CaseArm {
            choices: _choices,
            stmts: _stmts,
        } = self;
    }
}

/// A value, or the values from `first` to `last`.
pub struct CaseChoice {
    pub first: Expr,
    pub last: Option<Expr>,
}

impl Drop for CaseChoice {
    fn drop(self) {
        let CaseChoice {
            first: _first,
            last: _last,
        } = self;
    }
}

/// How a loop goes on.
pub enum Scheme {
    While(Expr),
    For {
        name: Word,
        reverse: bool,
        range: Drange,
    },
}

impl Drop for Scheme {
    fn drop(self) {
        match self {
            Scheme::While(_part) => {}
            Scheme::For {
                name: _name,
                reverse: _reverse,
                range: _range,
            } => {}
        }
    }
}
