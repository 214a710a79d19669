//! Lists of nodes that a replay text is made of, from parts that come as results. Every kind of tree is let go here, so that what builds by these functions lets none go itself.
#![tactic(auto, using(ada_tree::proofs::Rows::rows, crate::proofs::making::Appended::appended))]

mod alternatives;
mod declarations;
mod statement_lists;
mod taken_parts;

pub use alternatives::{alts_before, arms_before, arms_joined};
pub use declarations::{
    append_entries, entries_before, insert_decl, move_decls, one_entry, push_taken_decl,
};
pub use statement_lists::{before, joined, put_list};
pub use taken_parts::{take_body, there_drange, there_init};
