//! What stands around a place of an Ada program: what names mean there, and in which task, accept, loop and handler it is.

mod check_scopes;
mod inner;

pub use check_scopes::{CheckScopes, OutsideAccept};
pub use inner::{declare_formals, declare_parameter};
