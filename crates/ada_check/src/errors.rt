// Why a program is refused.

use ada_tree::Span;
use ada_types::TypeError;
use syn_event::What;
use thiserror::Error;

/// A refusal by one of the static rules of docs/LANGUAGE.md, with the place of what it refuses, or want of memory.
#[derive(Clone, Copy, Debug, PartialEq, Eq, Drop, Error)]
pub enum CheckError {
    /// One of the first twelve rules, which are those on names and types.
    #[error("{0}")]
    Rule(TypeError),
    /// The body of a task names a variable or an array constant of the main procedure.
    #[error("a task body names a variable of the main procedure")]
    SharedVariable { span: Span },
    /// An accept stands in the main procedure, is for an entry of another task, or stands inside an accept of the same entry.
    #[error("an accept may not stand here")]
    AcceptPlace { span: Span },
    /// A selective wait has no accept alternative, two terminate alternatives, or more than one of terminate, delay and else part.
    #[error("a selective wait has a wrong form")]
    SelectForm { span: Span },
    /// Two accept alternatives of a selective wait are for one entry.
    #[error("two alternatives accept the same entry")]
    SameEntryTwice { span: Span },
    /// In an original a name is declared that is left to the rewriters.
    #[error("a name is reserved")]
    ReservedName { span: Span },
    /// The name of the main procedure or of a task type stands where that of a task is needed.
    #[error("a name is no task")]
    MainEntry { span: Span },
    /// The own task is aborted before another one.
    #[error("the own task is not the last one that is aborted")]
    AbortOrder { span: Span },
    /// A task or task type has no body.
    #[error("a task has no body")]
    BodyMissing { span: Span },
    /// An exit leaves no loop around it in the same accept.
    #[error("an exit leaves no loop")]
    ExitPlace { span: Span },
    /// A raise without a name stands in no handler.
    #[error("a raise without a name stands outside of handlers")]
    RaisePlace { span: Span },
    /// A limit is passed.
    #[error("a limit of {limit} is passed")]
    Limit { what: What, limit: u32, span: Span },
    /// There was not enough memory.
    #[error("out of memory")]
    Memory,
}
