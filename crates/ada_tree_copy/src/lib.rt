// Copies of declarations and whole programs, with the same ids and places, and declarations built of their parts.
#![tactic(auto, using(ada_tree::proofs::Rows::rows))]

pub mod building;
mod copying;
mod declaration_parts;
mod declarations;
mod whole;

pub use ada_stmt_copy::expressions::ExprCopy;
pub use ada_stmt_copy::{StmtCopy, copy_stmts};
pub use copying::TreeCopy;
pub use declarations::copy_decls;
