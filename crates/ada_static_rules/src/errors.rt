// Why a program's types are refused.

use ada_tree::Span;
use thiserror::Error;

/// A refusal by one of the static rules 1 to 12 of docs/LANGUAGE.md, with the place of what it refuses, or want of memory.
#[derive(Clone, Copy, Debug, PartialEq, Eq, Drop, Error)]
pub enum TypeError {
    /// A name is used that is not declared before.
    #[error("a name is not declared before it is used")]
    Unknown { span: Span },
    /// A name is declared again where it may not be.
    #[error("a name is declared a second time")]
    Duplicate { span: Span },
    /// The types of operands, targets, actuals, conditions or bounds do not fit.
    #[error("the types do not fit")]
    Mismatch { span: Span },
    /// An expression that must be static is not.
    #[error("an expression is not static")]
    NotStatic { span: Span },
    /// A static range is empty, a static value is outside its subtype, or a static operation raises.
    #[error("a static range or value is bad")]
    RangeBad { span: Span },
    /// What is written is no variable.
    #[error("what is written is no variable")]
    NotVariable { span: Span },
    /// A formal of mode out is read.
    #[error("an out formal is read")]
    ReadOut { span: Span },
    /// Actuals or an index are missing or too many, or an accept differs from its entry.
    #[error("actuals, indices or formals differ from what is declared")]
    ArgCount { span: Span },
    /// The choices of a case overlap or leave out a value.
    #[error("the choices of a case overlap or leave out a value")]
    ChoiceBad { span: Span },
    /// A whole array is used, or an initial value has the wrong form.
    #[error("a whole array is used, or an initial value has the wrong form")]
    ArrayUse { span: Span },
    /// 'IMAGE or a plain expression stands in a wrong place.
    #[error("an expression or 'IMAGE is no part of a text here")]
    TextUse { span: Span },
    /// A name in a raise statement or a handler is no exception.
    #[error("a name is no exception")]
    NotException { span: Span },
    /// There was not enough memory.
    #[error("out of memory")]
    Memory,
}
