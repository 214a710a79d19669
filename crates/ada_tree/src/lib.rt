// The tree of an Ada 83 program, with its names.
#![tactic(auto)]

mod declarations;
mod expressions;
mod naming;
mod shortage;
mod statements;
mod static_types;
mod whole;

pub use declarations::{
    Decl, DeclKind, Drange, EntryDecl, Init, Priority, Shape, Subind, TaskUnit,
};
pub use expressions::{BinaryOp, Bounds, Expr, ExprKind, UnaryOp};
pub use naming::{NameId, Names, Span, Word};
pub use shortage::Memory;
pub use statements::{
    Accept, Alt, AltKind, Args, Arm, Body, Call, Callee, CaseArm, CaseChoice, Formal, Handler,
    ParMode, Part, Scheme, Stmt, StmtKind, Target,
};
pub use static_types::{Constant, Kind, Literals, Mark, Types};
pub use whole::Program;
