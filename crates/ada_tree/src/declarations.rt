// Declarations.

use crate::{Body, Bounds, Expr, Formal, Span, Word};

#[cycle(decl)]
pub struct Decl {
    pub kind: DeclKind,
    pub span: Span,
}

impl Drop for Decl {
    #[cycle(decl)]
    fn drop(self) {
        let Decl {
            kind: _kind,
            span: _span,
        } = self;
    }
}

#[cycle(decl)]
pub enum DeclKind {
    Number {
        name: Word,
        value: Expr,
    },
    Object {
        names: Vec<Word>,
        constant: bool,
        shape: Shape,
        init: Option<Init>,
    },
    Enumeration {
        name: Word,
        literals: Vec<Word>,
    },
    Array {
        name: Word,
        index: Drange,
        part: Subind,
    },
    Subtype {
        name: Word,
        base: Subind,
    },
    Exception {
        names: Vec<Word>,
    },
    /// An instance of INTEGER_IO, with its use clause.
    IntIo {
        name: Word,
    },
    /// `pragma PRIORITY(value);`
    Pragma {
        value: Expr,
    },
    Task(TaskUnit),
    TaskBody {
        name: Word,
        objects: Vec<Decl>,
        body: Body,
    },
}

impl Drop for DeclKind {
    #[cycle(decl)]
    fn drop(self) {
        match self {
            DeclKind::Number {
                name: _name,
                value: _value,
            } => {}
            DeclKind::Object {
                names: _names,
                constant: _constant,
                shape: _shape,
                init: _init,
            } => {}
            DeclKind::Enumeration {
                name: _name,
                literals: _literals,
            } => {}
            DeclKind::Array {
                name: _name,
                index: _index,
                part: _part,
            } => {}
            DeclKind::Subtype {
                name: _name,
                base: _base,
            } => {}
            DeclKind::Exception { names: _names } => {}
            DeclKind::IntIo { name: _name } => {}
            DeclKind::Pragma { value: _value } => {}
            DeclKind::Task(_part) => {}
            DeclKind::TaskBody {
                name: _name,
                objects: _objects,
                body: _body,
            } => {}
        }
    }
}

/// What an object is: a scalar or a named array, or an array of its own type.
pub enum Shape {
    Plain(Subind),
    ConstrainedArray { index: Drange, part: Subind },
}

impl Drop for Shape {
    fn drop(self) {
        match self {
            Shape::Plain(_part) => {}
            Shape::ConstrainedArray {
                index: _index,
                part: _part,
            } => {}
        }
    }
}

/// A subtype indication.
pub struct Subind {
    pub mark: Word,
    pub bounds: Option<Bounds>,
}

impl Drop for Subind {
    fn drop(self) {
        let Subind {
            mark: _mark,
            bounds: _bounds,
        } = self;
    }
}

/// A discrete range.
pub enum Drange {
    Given(Bounds),
    Marked(Subind),
}

impl Drop for Drange {
    fn drop(self) {
        match self {
            Drange::Given(_part) => {}
            Drange::Marked(_part) => {}
        }
    }
}

/// An initial value: an expression, a list of all components, or one value for all.
pub enum Init {
    One(Expr),
    List { parts: Vec<Expr>, span: Span },
    Others { part: Expr, span: Span },
}

impl Drop for Init {
    fn drop(self) {
        match self {
            Init::One(_part) => {}
            Init::List {
                parts: _parts,
                span: _span,
            } => {}
            Init::Others {
                part: _part,
                span: _span,
            } => {}
        }
    }
}

/// A task, or a task type where `of_kind` is true.
pub struct TaskUnit {
    pub name: Word,
    pub of_kind: bool,
    pub entries: Vec<EntryDecl>,
    pub priorities: Vec<Priority>,
}

impl Drop for TaskUnit {
    fn drop(self) {
        let TaskUnit {
            name: _name,
            of_kind: _of_kind,
            entries: _entries,
            priorities: _priorities,
        } = self;
    }
}

/// A pragma PRIORITY of a task; `place` is the number of the entries before it.
pub struct Priority {
    pub place: u32,
    pub value: Expr,
}

impl Drop for Priority {
    fn drop(self) {
        let Priority {
            place: _place,
            value: _value,
        } = self;
    }
}

/// An entry, or a family where `family` is there.
#[derive(Drop)]
pub struct EntryDecl {
    pub name: Word,
    pub family: Option<Drange>,
    pub formals: Vec<Formal>,
    pub span: Span,
}
