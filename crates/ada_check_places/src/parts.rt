//! The places in names, expressions, calls, accepts and selective waits of an Ada program, and what is refused first at them.

mod claims;
mod expressions;
mod statement_parts;
mod waits;

pub use expressions::{
    deeper, refuse_deep, walk_drange, walk_expr, walk_exprs, walk_maybe, walk_subind,
};
pub use statement_parts::{
    refuse_exit, walk_aborted, walk_assign, walk_call, walk_choices, walk_formals, walk_head,
    walk_label, walk_names, walk_raise, walk_scheme_if, walk_select, walk_target, walk_text,
};
pub use waits::walk_wait;
