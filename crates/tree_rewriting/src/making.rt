//! Nodes of the tree that a rewriter adds, and lists of them. Every kind of tree is let go here, so that what builds by these functions alone lets none go itself.
#![tactic(auto, using(ada_tree::proofs::Rows::rows))]

mod assignments;
mod compound;
mod declarations;
mod expressions;
mod leaves;
mod node_lists;

pub use assignments::{assignment, assignment_to, component_assignment};
pub use compound::{abort_one, handler_one, handler_others, if_one, value_arm};
pub use declarations::{
    append_decls, keep_decls, keep_entries, push_decl, push_entry, variable_decl,
};
pub use expressions::{
    args_of, attribute_of, binary_of, calling_of, chain, component_of, paren_of, unary_of,
};
pub use leaves::{
    attribute_expr, callee_named, delay_stmt, exit_stmt, integer_expr, name_expr, null_stmt,
    raise_stmt, reraise_stmt,
};
pub use node_lists::{
    append_stmts, keep_alts, keep_arms, keep_case_arms, keep_expr, keep_exprs, keep_formals,
    keep_stmts, one_alt, one_arm, one_expr, one_formal, one_handler, one_stmt, push_alt, push_arm,
    push_case_arm, push_expr, push_formal, push_stmt, push_taken_stmt, put_expr, some_args,
    some_expr, some_exprs, some_stmts, take_body, take_maybe, take_stmts,
};
