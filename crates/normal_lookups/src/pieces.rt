//! The pieces of which the normal form builds statements, and what is asked of names for them.
#![tactic(auto, using(ada_tree::proofs::Rows::rows, crate::proofs::pieces::Fronts::fronts))]

mod assigning;
mod literals;
mod meanings;
mod placing;

pub use assigning::{
    assigned_stmt, following, moving_index, push_assigned, push_copy, variable_expr,
};
pub use literals::literal_expr;
pub use meanings::{Literal, Meanings, Member};
pub use placing::{append_row, fill_empty, push_made, push_taken};
