//! How far one task has come, without its variables: the statements that are left in its innermost frame, what that frame
//! stands in, and the frames around it (chapters 5, 9 and 11 of ANSI/MIL-STD-1815A; frames are this project's rule). Statements
//! are borrowed from the tree and never copied: the entering of a branch, a block, a loop or an accept body is one more frame,
//! and nothing that is done costs the frames below.

#[tactic(auto, using(ada_tree::proofs::Rows::rows))]
mod coming;
#[tactic(auto, using(ada_tree::proofs::Rows::rows))]
mod frame;
#[tactic(auto, using(ada_tree::proofs::Rows::rows))]
mod frames;
#[tactic(auto, using(ada_tree::proofs::Rows::rows))]
mod landing;

pub use coming::Next;
pub use frame::Turns;
pub use frames::{Frames, Left};
